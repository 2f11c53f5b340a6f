//! The commands: what each is given, how it answers, and its help. All else that depends on the commands of the program comes
//! from these rows.

use crate::options::OptionName;

/// A command of the program.
#[derive(Clone, Copy, PartialEq, Eq)]
pub enum Verb {
    Import,
    Plan,
    Check,
    Icd,
    Draw,
    Slots,
    Buses,
    Load,
    Margin,
    Lint,
    Diff,
    Replay,
    Simulate,
    Live,
    Survey,
    Judge,
    Word,
    Encode,
    Lines,
}

/// When a command prints.
#[derive(Clone, Copy)]
pub enum AnswerForm {
    /// Nothing before it has its whole answer.
    Whole,
    /// Line by line.
    ByLine,
    /// It runs a station: `command_live` does it, and `command` all others.
    Station,
}

/// How a command answers.
#[derive(Clone, Copy)]
pub struct Answers {
    pub form: AnswerForm,
    /// The status of a refusal: 2, if the status 1 says that the command found something.
    pub trouble: u8,
    /// Whether it answers by the plan of one table.
    pub is_on_plan: bool,
}

const WHOLE: Answers = Answers {
    form: AnswerForm::Whole,
    trouble: 1,
    is_on_plan: false,
};

type Name = &'static str;

/// What a command is given that is no option, by what help calls it: a name, perhaps a second one, perhaps a number of
/// frames, and perhaps any number of further names.
pub type Names = (Name, Option<Name>, Option<Name>, Option<Name>);

const TABLE: Names = ("TABLE", None, None, None);

/// A command, its name, what it is given, its options in the order in which help lists them, and how it answers. Definitions can
/// name no constant that is a struct with texts, so a row is none.
pub type Row = (Verb, &'static str, Names, &'static [OptionName], Answers);

/// The most frames that a group sends in one run of `live` (profile).
pub const MOST_FRAMES: u32 = 1_000_000;

/// The help of a command: its first line, that of the names and the number that it is given, in the order of its row, and its
/// end, which has an example. A command has `""` for what it is not given.
#[derive(Clone, Copy)]
pub struct CommandHelp {
    pub about: &'static str,
    pub names: [&'static str; 4],
    pub end: &'static str,
}

const A_TABLE: &str = "Equipment table of the station (TOML)";

const OF_TABLE: [&str; 4] = [A_TABLE, "", "", ""];

const LOG: &str = "Received words, `TIME RECEIVER HEX` on each line";

const LOGS: &str = "Further logs, read after the first as if they were one";

/// The commands, in the order of `Verb`, in which help lists them: the row of each, and its help.
macro_rules! all_commands {
    ($of_rows:ident $($given:tt)*) => {
        $of_rows! { $($given)*
        Import, "import", ("FILE", None, None, None), [Map, Names, Fill, KeepColumns, Quiet];
            "Print an equipment table, made from a spreadsheet's rows",
            ["Comma-separated values, with a row for each output", "", "", ""], "\
The heading names the columns, in any order and any case, with spaces or
underlines. Commas, semicolons or tabs separate fields. Other columns are
ignored, and so are up to ten lines above the heading.
  group, rate        the group that sends the output, and its bit rate: in
                     bit/s, or HS (100000) or LS (12500)
  source, receiver   the source that the output sends, and its receiver
  label, sdi         the label in octal, and the SDI, 0 to 3 or `any`
  min_us, max_us     minimum and maximum transmit interval in microseconds
  min_ms, max_ms     or in milliseconds, with at most three decimals
  max_hz, min_hz     or as the greatest and the least rate in Hz
  interval_ms        or both in a column, as 50/100; also interval_us, and
                     rate_hz for rates, as 10-20
  hold               optional: a number, or empty
  filters            optional: filters of the receiver, separated by spaces
A row without a group states its source and receiver alone.

Examples:
  a429 import examples/displays/labels.csv > table.toml
  a429 import rows.csv --map \"Min (ms)=min_ms\" > table.toml";
        Plan, "plan", TABLE, [Keep, Csv, Json], is_on_plan: true;
            "Plan a station on the fewest buses for its periods, with their bound",
            OF_TABLE, "\
Each label recurs at the greatest power of two of slots in its interval. No
schedule with these periods has fewer buses. Other periods can need fewer:
`bound` of `a429 margin` is a lower bound for all of them.

Example:
  a429 plan examples/first/table.toml";
        Check, "check", ("TABLE", Some("PLAN"), None, None), [Csv, Json];
            "Check whether a plan's text shows the fewest buses for a station",
            [A_TABLE, "Plan text, from any program or person", "", ""], "\
Example:
  a429 check examples/displays/table.toml examples/displays/table.plan";
        Icd, "icd", TABLE, [Plan, Csv, Text, Json, Stamp], is_on_plan: true;
            "Print the data of each output for an interface control document",
            OF_TABLE, "\
There is a row for each output:
  group, rate              its group, and the bit rate in bit/s
  source, receiver         its source, and the receiver of that source
  label, sdi               the label in octal, and the SDI or `any`
  bus, offset              its bus, and its first slot, both from 0
  period_slots, period_us  its transmit period
  min_us, max_us           its transmit interval, as in the table
  hold                     as in the table
  spacing_slots            the minimum transmit interval in slots
  latency_us               how long it takes at most until a word is sent

Example:
  a429 icd --csv examples/displays/table.toml";
        Draw, "draw", TABLE, [Plan, Group, Slots, Width, Html], is_on_plan: true;
            "Draw the slot tables of a plan as an image (SVG)",
            OF_TABLE, "\
Example:
  a429 draw --group displays examples/displays/table.toml > displays.svg";
        Slots, "slots", TABLE, [Plan, Group, All, Code, Board, Csv, Json, Stamp], is_on_plan: true;
            "Print the slot tables of a plan: each cell with its output",
            OF_TABLE, "\
The cells are in the order in which each group sends them in one frame.
  slot, time_us       the slot from 0, and when it begins in the frame
  bus                 the bus from 0
  label, sdi, source  the source of the output in this cell
  period_slots        the transmit period of the output
With --board the words of each bus in one frame: group, bus, time_us, label,
sdi, and the word as eight hexadecimal digits.

Example:
  a429 slots --group displays examples/displays/table.toml";
        Buses, "buses", TABLE, [Plan, Csv, Json, Stamp], is_on_plan: true;
            "Print which words each input bus and each output bus carries",
            OF_TABLE, "\
A row is a word on a bus.
  direction           in: the bus of a receiver; out: a bus of a group
  name, bus, rate     the receiver or the group, the bus from 0, its bit rate
  label, sdi, source  the word, and its source
  period_us           how often it goes out, in microseconds

Example:
  a429 buses examples/displays/table.toml";
        Load, "load", TABLE, [Plan, Limit, Csv, Json, Stamp], trouble: 2, is_on_plan: true;
            "Print the load of each bus, and how many more outputs it can take",
            OF_TABLE, "\
There is a row for each bus, and a row for each group with all its buses. The
rows after it say how many further outputs of each period its free cells take
(`room`). With --limit, `needed` in the row of a group above the limit is the
fewest buses that stay within the limit.

Example:
  a429 load --limit 80 examples/displays/table.toml";
        Margin, "margin", TABLE, [Plan, Csv, Json, Stamp], is_on_plan: true;
            "Show what would save a bus in each group",
            OF_TABLE, "\
There is a row for each group. If it has more than one bus, a row follows for
each output that could have a longer period:
  frame_slots     the frame of the group in slots
  buses           how many buses it has
  excess          how many cells of a frame must be freed to save a bus
  bound           no schedule with these intervals has fewer buses than this
  source          an output
  period_slots    its period in slots
  next_slots      the next longer period
  less            how many cells that would free
  max_us          the maximum transmit interval that it needs for that
  choose          if all outputs with `yes` get their max_us, a bus is saved;
                  in the row of the group: whether any choice saves one

Example:
  a429 margin examples/air_data_and_inertial/station.toml";
        Lint, "lint", TABLE, [Csv, Json, Stamp], trouble: 2;
            "Report likely mistakes in a table, such as sources that are not sent",
            OF_TABLE, "\
There is a row for each finding, and the status is 1 if there is a finding:
  unfit           the interval of an output has no period
  too-many-buses  a group needs this number of buses, more than 16
  unheard         no filter of the receiver passes this source
  unsent          no group sends this source
  idle            this receiver has no source
  blind           the filter with this number passes no source of its receiver
  alike           two outputs have the same label, and one has the SDI `any`
  full            a group has no empty cell
  coarse          an output goes out far more often than its maximum asks for
  same-filters    two receivers have the same filters
  crowded         a bus is filled to more than 80 per cent
  milliseconds    the intervals of a group may be milliseconds

Example:
  a429 lint examples/air_data_and_inertial/station.toml";
        Diff, "diff", ("TABLE", Some("OTHER"), None, None), [Plan, OtherPlan, All, Csv, Json, Stamp], trouble: 2;
            "Print what changes when one table replaces another",
            [A_TABLE, "Equipment table that replaces TABLE (TOML)", "", ""], "\
There is a row for each thing that changes, with all that changes of it, and the
status is 1 if there is one. A row `station` means that OTHER cannot be
published while TABLE runs. A row `moved` has the number of outputs that only
change their slots. `gap_slots` and `gap_us` are the time from the last send of
an output to the first one after the change, and `over_max` says if it is above
the maximum.

Example:
  a429 diff examples/displays/table.toml examples/displays/faster.toml";
        Replay, "replay", ("TABLE", Some("SCRIPT"), None, Some("FURTHER")),
            [Plan, Quiet, Only, Csv], form: AnswerForm::ByLine;
            "Play the events of a script on a station, and print the answers",
            [A_TABLE, "Script of events, one on each line", "", "Further tables that the script can publish, numbered from 1"], "\
A script has an event on each line:
  arrive RECEIVER HEX  a word comes in
  cell GROUP           a group sends its next cell
  frame GROUP          a group goes on to its next frame
  publish N            the plan of further table N is published

Example:
  a429 replay examples/first/table.toml examples/first/script";
        Simulate, "simulate", ("TABLE", Some("LOG"), None, Some("LOGS")),
            [Plan, Time, Tick, Dates, From, Map, Channel, Ignore, Reversed, Until, Sent, Summary, Quiet, Csv, Json],
            form: AnswerForm::ByLine;
            "Simulate a station on a log of received words with times",
            [A_TABLE, LOG, "", LOGS], "\
A log has a word on each line. Blanks, commas or semicolons separate its fields,
and a heading may name its columns. TIME must not decrease. Empty lines, and
lines that begin with #, are ignored. US is in microseconds. Output lines:
  TIME GROUP BUS HEX SOURCE AGE      a word is sent, AGE microseconds old
  TIME RECEIVER HEX refused REASON   a received word is not accepted
With --summary there is a row for each output, with times in microseconds:
  sent                   how many words it sent
  least_us, greatest_us  the time from one send to the next
  late_us, bound_us      how late a word was sent, and how late it can be

Example:
  a429 simulate examples/displays/table.toml examples/displays/log";
        Live, "live", ("TABLE", Some("WORDS"), Some("FRAMES"), Some("FURTHER")), [Plan, Quiet], form: AnswerForm::Station;
            "Run a station on threads, and print how many words and cells passed",
            [A_TABLE, "Received words, `RECEIVER HEX` on each line", "How many frames each group sends, at most 1000000", "Further tables, published one by one while the station runs"], "\
Example:
  a429 live examples/air_data_and_inertial/station.toml \\
      examples/air_data_and_inertial/words 100";
        Survey, "survey", ("LOG", None, None, Some("LOGS")),
            [Table, Time, Tick, Dates, From, Until, Map, Channel, Ignore, Reversed, Rate, Rows, Slack, Quiet, Csv, Json],
            trouble: 2;
            "Print which words are on recorded lines, and how often each comes",
            [LOG, "", "", LOGS], "\
A log has a word on each line. Blanks, commas or semicolons separate its fields,
and a heading may name its columns. There is a row for each name, label and SDI,
and a row for each name with all its words:
  words, even                     how many words, and how many have even parity
  least_us, mean_us, greatest_us  the time from one word to the next
  first_us, last_us, last_word    the first time, and the last, with its word
  load                            per cent of the time taken, at the bit rate
With --table, `ssm_0` to `ssm_3` count words by SSM, the next four columns have
the least and the greatest data as BNR and as BCD, and `table` says:
  expected    its receiver or group has it, and the intervals are right
  unexpected  its receiver or group has none such, or there is no such name
  fast, slow  the least interval is below the minimum of the output, or the
              greatest is above its maximum
  missing     its receiver or group is in the log, and no such word came

Examples:
  a429 survey examples/displays/log
  a429 survey --table examples/displays/table.toml examples/displays/log";
        Judge, "judge", ("TABLE", Some("IN"), None, Some("OUT")),
            [Plan, In, Tolerance, Events, Time, Tick, Dates, From, Until, Align, Shift, Drift, Map, Channel, Ignore, Reversed, Quiet, Csv, Json],
            trouble: 2;
            "Judge whether what a box sent is right, by logs of its words",
            [A_TABLE, "What came in, `TIME RECEIVER HEX` on each line", "", "\
What the box sent, with GROUP or GROUP.BUS for
RECEIVER. Without OUT, the logs of IN have both"], "\
Several logs of OUT are read as if they were one. All are on one clock, or OUT
is moved to that of IN. With `--from first` times are counted from the first
word of IN. There is a row for each output, and a row for each group that counts
its foreign words. The status is 1 if something is found:
  wrong    the word that was sent did not come in before
  stale    a later word came in before
  soon     it was sent before the minimum interval was over
  late     it was sent after the maximum interval was over
  again    a word was sent more often than `hold` says
  silent   nothing more was sent, for longer than the maximum interval
  missed   a word that came in was not sent in time
  foreign  a word that no output of the group sends

Example:
  a429 judge examples/displays/table.toml examples/displays/log sent.log";
        Word, "word", ("HEX", None, None, None), [Csv, Json];
            "Print the fields of a 32-bit word, and its data as BNR and as BCD",
            ["The word, as eight hexadecimal digits", "", "", ""], "\
Example:
  a429 word 600000c1";
        Encode, "encode", ("LABEL", None, None, None), [Sdi, Ssm, Data, Bnr, Bits, Bcd, Csv, Json];
            "Print the 32-bit word that has these fields",
            ["The label, as three octal digits", "", "", ""], "\
Give exactly one of --data, --bnr and --bcd. The word has odd parity. Print its
fields with `a429 word`.

Example:
  a429 encode 203 --bnr 5000";
        Lines, "lines", ("FILE", None, None, Some("FILTER")), [Csv, Json], form: AnswerForm::ByLine;
            "Decode a recorded line: print its words, its faults, and the rest",
            ["Line file, with one byte for each symbol", "", "", "Label filters, LLL/MMM in octal, at most 32"], "\
A line file has `1` for Hi, `0` for Lo and `.` for Null; spaces and line feeds
are skipped. With filters, `lines` prints only the words that a filter passes.

Example:
  a429 lines examples/displays/line 203/377";
        }
    };
}

macro_rules! rows {
    ($($verb:ident, $name:literal, $names:expr, [$($option:ident),*] $(, $field:ident: $value:expr)*;
        $about:literal, $help:expr, $end:literal;)*) => {
        &[$((
            Verb::$verb,
            $name,
            $names,
            &[$(OptionName::$option),*],
            Answers { $($field: $value,)* ..WHOLE },
        )),*]
    };
}

/// The rows of all commands.
pub static COMMANDS: &[Row] = all_commands!(rows);

macro_rules! help_of {
    ($of:ident: $($verb:ident, $name:literal, $names:expr, [$($option:ident),*] $(, $field:ident: $value:expr)*;
        $about:literal, $help:expr, $end:literal;)*) => {
        match $of {
            $(Verb::$verb => CommandHelp { about: $about, names: $help, end: $end },)*
        }
    };
}

/// The help of a command.
pub fn help_of(verb: Verb) -> CommandHelp {
    all_commands!(help_of verb:)
}
