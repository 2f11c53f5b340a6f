//! The options: what is given with each, and its help.
ghost use Rattle.std.specs.Prelude.{◌≡◌};
ghost use Rattle.a429_arguments.specs.CommandLine.{id_of, kind_of};

use self::OptionKind::{Flag, Number, Text, Texts};

/// An option of the program. A command has some of them.
#[derive(Clone, Copy, PartialEq, Eq)]
pub enum OptionName {
    Csv,
    Json,
    Stamp,
    Text,
    Map,
    Names,
    Fill,
    All,
    Group,
    Slots,
    Width,
    Html,
    Time,
    From,
    Channel,
    Reversed,
    Until,
    Sent,
    Summary,
    Code,
    Board,
    Limit,
    Rate,
    Rows,
    Slack,
    In,
    Tolerance,
    Events,
    Sdi,
    Ssm,
    Data,
    Bnr,
    Bits,
    Bcd,
    Quiet,
    Only,
    Keep,
    Plan,
    KeepColumns,
    Ignore,
    Shift,
    Drift,
    Align,
    Table,
    OtherPlan,
    Tick,
    Dates,
}

/// Which texts an option takes.
#[derive(Clone, Copy)]
pub enum TextForm {
    /// Each text.
    Any,
    /// How many slots are drawn side by side: 64, 128 or 256.
    Width,
    /// A unit of times: `us`, `ms`, `s` or `ns`.
    Unit,
    /// From when on times are counted: `first`, or microseconds of at most eighteen digits.
    Origin,
    /// Which bits of a log are written the other way round: those of the `label`, or all of the `word`.
    Order,
    /// Which number of a date is first: that of the day (`dmy`) or that of the month (`mdy`).
    Dates,
    /// FROM=TO.
    Rename,
    /// US or GROUP=US.
    Tolerance,
    /// Microseconds of at most fourteen digits, which may follow a minus.
    Shift,
    /// Parts in 10^9 of at most six digits, which may follow a minus.
    Drift,
}

/// What is given with an option.
#[derive(Clone, Copy)]
pub enum OptionKind {
    /// Nothing.
    Flag,
    /// A text.
    Text(TextForm),
    /// Such a text each time. It is given as often as one likes.
    Texts(TextForm),
    /// A whole number from `least` to `most`.
    Number { least: u64, most: u64 },
}

/// All options, in the order of `OptionName`: the name of each without the two hyphens, what is given with it, what help
/// calls that, and what the option does. The ranges are those of docs/RULES.md, Limits; that of `--rate` is the bit rate of
/// a line (ARINC 429 Part 1).
macro_rules! all_options {
    ($of_rows:ident $($given:tt)*) => {
        $of_rows! { $($given)*
            Csv, "csv", Flag, "", "As comma-separated values, for spreadsheets";
            Json, "json", Flag, "", "As JSON, an array with an object for each row";
            Stamp, "stamp", Flag, "", "First the name and SHA-256 digest of the table's file";
            Text, "text", Flag, "", "With --csv: labels whose zeros a spreadsheet keeps";
            Map, "map", Texts(TextForm::Rename), "FROM=TO", "\
Take a heading FROM of a log as column TO, such as
--map Zeit=time; may be given again";
            Names, "names", Flag, "", "\
Make names of texts that are none:
`Radio Height` becomes radio-height. No two
texts become one name";
            Fill, "fill", Flag, "", "\
An empty group, rate or receiver is the one
above, as below merged cells";
            All, "all", Flag, "", "\
A row for each output that only moves, instead of
their number";
            Group, "group", Text(TextForm::Any), "NAME", "Only the group of this name";
            Slots, "slots", Number { least: 1, most: 8192 }, "N", "Slots to draw, 1 to 8192 [default: one frame, at most 256]";
            Width, "width", Text(TextForm::Width), "N", "Slots in a row, 64, 128 or 256 [default: 64]";
            Html, "html", Flag, "", "As a page (HTML) with `icd`, `load`, `margin` and `lint`";
            Time, "time", Text(TextForm::Unit), "UNIT", "\
Unit of times in the log, us, ms, s or ns, unless
they are times of day or dates [default: us]";
            From, "from", Text(TextForm::Origin), "TIME", "\
Count times from the first word (first), or from this
time in us; ignore words before it [default: 0]";
            Channel, "channel", Texts(TextForm::Rename), "FROM=TO", "\
Take channel or name FROM in a log as the name TO, as
in --channel 3=adc-1; may be given again";
            Reversed, "reversed", Text(TextForm::Order), "BITS", "\
Bits of the words in a log that are written the other
way round: those of the label, or all of the word";
            Until, "until", Number { least: 0, most: 99_999_999_999_999 }, "US", "Ignore words after US, as --from counts times";
            Sent, "sent", Flag, "", "Only the words that are sent, as a log for `judge`";
            Summary, "summary", Flag, "", "A row for each output instead of a line for each word";
            Code, "c", Flag, "", "As a header for C (C99), with an array for each group";
            Board, "board", Flag, "", "As a schedule for bus boards: each word with data 0";
            Limit, "limit", Number { least: 1, most: 100 }, "PERCENT", "Status 1 if a bus load is above PERCENT, 1 to 100";
            Rate, "rate", Number { least: 12_000, most: 100_000 }, "RATE", "\
Bit rate of the lines, 12000 to 100000 bit/s
[default: 100000]";
            Rows, "rows", Flag, "", "Rows for `import` instead: the start of a table";
            Slack, "slack", Number { least: 0, most: 99 }, "PERCENT", "\
Widen the intervals of --rows by PERCENT, 0 to 99
[default: 25]";
            In, "in", Texts(TextForm::Any), "LOG", "A further log of what came in; may be given again";
            Tolerance, "tolerance", Texts(TextForm::Tolerance), "US", "\
How far recorded times may be wrong, 0 to 30000000 us
for all groups, or for one as GROUP=US; may be given
again [default: two slots of the group, or half its
shortest period if that is less]";
            Events, "events", Flag, "", "A row for each finding instead of each output";
            Sdi, "sdi", Number { least: 0, most: 3 }, "N", "The SDI, 0 to 3 [default: 0]";
            Ssm, "ssm", Number { least: 0, most: 3 }, "N", "The SSM, 0 to 3 [default: 3 with --bnr, otherwise 0]";
            Data, "data", Text(TextForm::Any), "HEX", "Data as one to five hexadecimal digits, at most 7ffff";
            Bnr, "bnr", Text(TextForm::Any), "N", "Data as a whole number in BNR; write --bnr=-5 for -5";
            Bits, "bits", Number { least: 1, most: 18 }, "K", "Bits of --bnr below its sign, 1 to 18 [default: 18]";
            Bcd, "bcd", Text(TextForm::Any), "DIGITS", "Data as five decimal digits in BCD, the first at most 7";
            Quiet, "quiet", Flag, "", "No line of progress on a terminal";
            Only, "only", Text(TextForm::Any), "GROUP", "Only the answers for cells and frames of this group";
            Keep, "keep", Text(TextForm::Any), "PLAN", "\
Keep places of this plan text: an output that is in it
stays at its place, if there is room for all";
            Plan, "plan", Text(TextForm::Any), "PLAN", "\
Work on this plan text, which `check` accepts,
instead of planning";
            KeepColumns, "keep-columns", Texts(TextForm::Any), "HEADING", "\
Keep the column with this heading: its texts
become comments, which sheets show; may be given
again";
            Ignore, "ignore", Texts(TextForm::Any), "CHANNEL", "\
Ignore the words of this channel or name of a log;
may be given again";
            Shift, "shift", Text(TextForm::Shift), "US", "\
Move the times of what the box sent by US, as in
--shift=-500, to the clock of IN [default: 0]";
            Drift, "drift", Text(TextForm::Drift), "PPB", "\
By how much the clock of OUT is fast, in parts in
10^9; =-PPB if it is slow [default: 0]";
            Align, "align", Flag, "", "\
Find --shift and --drift by the words that change,
and print both";
            Table, "table", Text(TextForm::Any), "TABLE", "\
Compare with this equipment table: column `table`,
rows of missing words; status 1 for findings";
            OtherPlan, "other-plan", Text(TextForm::Any), "PLAN", "The same for OTHER";
            Tick, "tick", Number { least: 1, most: 1_000_000_000 }, "NS", "\
Times are hexadecimal counts, each of NS nanoseconds,
1 to 1000000000";
            Dates, "dates", Text(TextForm::Dates), "ORDER", "\
Order of a date such as 02/01/2026: dmy or mdy
[default: as an earlier row of the log shows]";
        }
    };
}

macro_rules! kinds {
    ($($name:ident, $id:literal, $kind:expr, $value:literal, $text:literal;)*) => {
        &[$((OptionName::$name, $id, $kind)),*]
    };
}

macro_rules! help_of {
    ($option:ident: $($name:ident, $id:literal, $kind:expr, $value:literal, $text:literal;)*) => {
        match $option {
            $(OptionName::$name => OptionHelp { value: $value, text: $text },)*
        }
    };
}

/// The options, in the order of `OptionName`: the name of each without the two hyphens, and what is given with it. Their help
/// is apart, since each proof reads all of this.
pub static OPTIONS: &[(OptionName, &str, OptionKind)] = all_options!(kinds);

/// The help of an option: what help calls the text or the number that is given with it, and what it does.
#[derive(Clone, Copy)]
pub struct OptionHelp {
    pub value: &'static str,
    pub text: &'static str,
}

impl OptionName {
    /// The name without the two hyphens.
    pub fn id(self) -> &'static str
        ensures { result.now ≡ id_of self }
    {
        OPTIONS[self as usize].1
    }

    /// What is given with it.
    pub fn kind(self) -> OptionKind
        ensures { result ≡ kind_of self }
    {
        OPTIONS[self as usize].2
    }

    /// Its help.
    pub fn help(self) -> OptionHelp {
        all_options!(help_of self:)
    }
}
