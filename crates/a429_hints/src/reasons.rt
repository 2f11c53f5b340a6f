//! What the reasons of `check` mean.

use crate::lists::text_under;

/// The reasons of `check`, and for each the rule of the line that is refused.
static RULES: [&str; 11] = [
    "form: the line must have the form shown and end with a line feed; no line may be missing or extra",
    "rate: the bit rate must be that of the table, or in version 2 that of the group",
    "group: the group must be the next one of the table",
    "frame: the frame must be the longest grid period of the group's outputs",
    "buses: the number of buses must be 1 to 16",
    "output: each output line must name the source of a different output of the group",
    "period: the period must be the greatest power of two, in slots, within the output's interval",
    "place: the bus must be less than the number of buses, and the offset less than the period",
    "shared: this output uses a cell of an earlier output of the group",
    "bound: in `bound D > F * H`, D is the cells that the outputs fill in a frame, F is buses - 1, and H is the frame; D must be more than F * H, and at most (F + 1) * H",
    "hold: the hold must be that of the output, or `none`",
];

/// The rule of a line that `check` refuses for this reason, as a text.
pub fn meaning(reason: &str) -> &'static str {
    text_under(&RULES, reason)
}
