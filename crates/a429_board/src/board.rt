//! The opening of a board.
ghost use Rattle.std.specs.Prelude.{◌≡◌, ◌<◌, ◌∷◌, [], IfOk};
ghost use Rattle.a429_board.specs.Lists.{AreAlike};

use crate::planner::Planner;
use crate::watcher::Watcher;
use a429_slots::{OUTPUTS, Plan};
use std::alloc::{AllocError, Global};
use std::sync::Wait;

/// A board: one planner publishes plans on it, and watchers read the newest.
pub struct Board;

impl Board {
    /// A board with this number of watchers, which begins with this plan under the plan's own number. Error: an
    /// allocation failed, or a reader was refused.
    pub fn open<R: Wait>(
        rt: &R,
        alloc: Global,
        plan: Plan<OUTPUTS>,
        watchers: u32,
    ) -> Result<(Planner, Vec<Watcher>), AllocError>
        requires some { 0 < watchers }
        ensures planner { IfOk result (λ r. (r.0.list ≡ plan ∷ []) × (r.0.last ≡ plan)) }
        ensures watchers { IfOk result (λ r. AreAlike r.1.items watchers (record { book = r.0.book; list = plan ∷ []; opened = plan })) }
    {
        let mut planner = Planner::begin(rt, alloc, plan, watchers)?;
        match planner.watchers(alloc, watchers) {
            Ok(all) => Ok((planner, all)),
            Err(fault) => {
                planner.close(rt);
                Err(fault)
            }
        }
    }
}
