//! What is kept of a name.
ghost use Rattle.std.specs.Prelude.{◌≡◌, ◌+◌, ◌*◌, ◌<◌, ◌==◌, [], ℕ, if◌then◌else◌, slice_index_or, string_bytes, IfErr, IfOk, OnErr, OnOk};
ghost use Rattle.a429_survey.specs.Kept.{line_of, line_with, no_row_figures, row_figures_with, place_of, whole_of};
ghost use Rattle.a429_survey.specs.Pairs.{AreFrom, IsGap, IsPlaceOf, figures_at};

use crate::extents::Extents;
use crate::figures::{Figures, place_of};
use std::alloc::{AllocError, Global};
use std::marker::Model;

/// The figures of a row.
#[derive(Clone, Copy)]
pub struct RowFigures {
    /// Those that the row of all words has too.
    pub common: Figures,
    /// What the words of a label and an SDI say.
    pub said: Extents,
}

/// The figures of the words with one label and SDI.
#[derive(Clone, Copy)]
pub struct Pair {
    /// The place of these: four times the label, and the SDI.
    place: u32,
    figures: RowFigures,
}

/// The figures of a name's words: of all of them, and of those with each label and SDI that came.
#[derive(Drop)]
pub struct Line {
    name: String,
    all: Figures,
    /// In the order of their places.
    pairs: Vec<Pair>,
}

impl Model for Line {
    ghost use Rattle.std.specs.Prelude.{map, string_bytes};
    ghost use Rattle.std.specs.List.{range_with_len};
    ghost use Rattle.a429_survey.specs.Kept.{LineKept};
    ghost use Rattle.a429_survey.specs.Pairs.{AreFrom, figures_at};

    ghost Value = { LineKept };

    ghost view = { λ l. record { name = string_bytes l.name; all = l.all; each = map (figures_at l.pairs.items) (range_with_len 0 1024) } };

    ghost invariant = { λ l. AreFrom 0 l.pairs.items };
}

impl RowFigures {
    /// Those of no word.
    fn none() -> RowFigures
        ensures { result ≡ no_row_figures }
    {
        RowFigures::whole(Figures::none())
    }

    /// Those of all words of a name, whose data is not kept.
    pub fn whole(figures: Figures) -> RowFigures
        ensures { result ≡ whole_of figures }
    {
        RowFigures {
            common: figures,
            said: Extents::none(),
        }
    }

    /// Takes one more word.
    #[tactic(auto, unfolding(crate::specs::Kept::row_figures_with))]
    fn note(&mut self, time: u64, raw: u32)
        ensures { self.new ≡ row_figures_with time raw self.old }
    {
        self.common.note(time, raw);
        self.said.note(raw);
    }
}

/// The index of the pair of a place. Error: the index of one that is added, since there is none.
fn find(pairs: &[Pair], place: usize) -> Result<usize, usize>
    requires { AreFrom 0 pairs.now }
    ensures found { IfOk result (IsPlaceOf pairs.now place) }
    ensures absent { IfErr result (IsGap pairs.now place) }
{
    pairs.binary_search_by_key(&place, |pair| pair.place as usize)
}

/// Takes one more word into the figures of its label and SDI. Error: an allocation failed.
fn note_pair(pairs: &mut Vec<Pair>, time: u64, raw: u32) -> Result<(), AllocError>
    requires { AreFrom 0 pairs.old.items }
    ensures order { AreFrom 0 pairs.new.items }
    ensures noted { OnOk result ((place : ℕ) → figures_at pairs.new.items place ≡ (if place_of raw == place
        then row_figures_with time raw (figures_at pairs.old.items (place_of raw)) else figures_at pairs.old.items place)) }
    ensures kept { OnErr result (pairs.new.items ≡ pairs.old.items) }
{
    let place = place_of(raw);
    match find(pairs, place) {
        Ok(index) => {
            let pair = &mut pairs[index];
            pair.figures.note(time, raw);
        }
        Err(index) => {
            let mut figures = RowFigures::none();
            figures.note(time, raw);
            let place = place as u32;
            pairs.insert(index, Pair { place, figures })?;
        }
    }
    Ok(())
}

impl Line {
    /// The line of a name, before any word came on it. Error: an allocation failed.
    fn empty(alloc: Global, name: &str) -> Result<Line, AllocError>
        ensures { IfOk result (λ line. line ≡ line_of name.now []) }
    {
        let name = String::from_str(alloc, name)?;
        Ok(Line {
            name,
            all: Figures::none(),
            pairs: Vec::new(alloc),
        })
    }

    /// The line of a name with its first word. Error: an allocation failed.
    pub fn of_word(alloc: Global, name: &str, time: u64, raw: u32) -> Result<Line, AllocError>
        ensures { IfOk result (λ line. line ≡ line_with time raw (line_of name.now [])) }
    {
        let mut line = Line::empty(alloc, name)?;
        line.note(time, raw)?;
        Ok(line)
    }

    /// Its name.
    pub fn name(&self) -> &String
        ensures { string_bytes result.now ≡ self.now.name }
    {
        &self.name
    }

    /// The figures of all words.
    pub fn all(&self) -> &Figures
        ensures { result.now ≡ self.now.all }
    {
        &self.all
    }

    /// The figures of the words with a label and an SDI.
    pub fn at(&self, label: u8, sdi: u8) -> RowFigures
        requires { sdi < 4 }
        ensures { result ≡ slice_index_or self.now.each (4 * label + sdi) no_row_figures }
    {
        match find(&self.pairs, 4 * usize::from(label) + usize::from(sdi)) {
            Ok(index) => self.pairs[index].figures,
            Err(_) => RowFigures::none(),
        }
    }

    /// Takes one more word into the figures. Error: an allocation failed.
    pub fn note(&mut self, time: u64, raw: u32) -> Result<(), AllocError>
        ensures noted { OnOk result (self.new ≡ line_with time raw self.old) }
        ensures kept { OnErr result (self.new ≡ self.old) }
    {
        note_pair(&mut self.pairs, time, raw)?;
        self.all.note(time, raw);
        Ok(())
    }
}
