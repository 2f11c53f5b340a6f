//! The help of the program. `tools/docs` writes its rows.

pub const PROGRAM: &str = "\
ARINC 429 data concentrator: receives words, and sends them in planned slots

Usage: a429 <COMMAND>

Plan
  import    Print an equipment table, made from a spreadsheet's rows
  plan      Plan a station on the fewest buses for its periods, with their bound
  check     Check whether a plan's text shows the fewest buses for a station
Review
  icd       Print the data of each output for an interface control document
  draw      Draw the slot tables of a plan as an image (SVG)
  slots     Print the slot tables of a plan: each cell with its output
  buses     Print which words each input bus and each output bus carries
  load      Print the load of each bus, and how many more outputs it can take
  margin    Show what would save a bus in each group
  lint      Report likely mistakes in a table, such as sources that are not sent
  diff      Print what changes when one table replaces another
Try
  replay    Play the events of a script on a station, and print the answers
  simulate  Simulate a station on a log of received words with times
  live      Run a station on threads, and print how many words and cells passed
Look
  survey    Print which words are on recorded lines, and how often each comes
  judge     Judge whether what a box sent is right, by logs of its words
  word      Print the fields of a 32-bit word, and its data as BNR and as BCD
  encode    Print the 32-bit word that has these fields
  lines     Decode a recorded line: print its words, its faults, and the rest

Options
  -h, --help     Print help, also after a command
  -V, --version  Print version

A table is TOML. It begins with `version = 2`, and then has any number of:
  [[receiver]]      name, filters (may be left out)
  [[source]]        name, receiver, label, sdi
  [[group]]         name, rate (bit/s)
  [[group.output]]  source, min_us, max_us, hold (may be left out)

Examples:
  a429 plan examples/first/table.toml
  a429 help replay";
