//! The program's own texts.

/// What `--help` prints.
pub const HELP: &str = "\
usage: smithy_replay COMMAND

A command reads its script from standard input and prints to standard output.

  replay        replays one run of an operation from a script of answers
  client        runs clients against a scripted outside
  client --moments
                the same, with the moments of the entries
  wait          runs a waiter over a script
  waiters       runs many waiters over a script, whose polls one bucket pays for
  fleet         runs clients in threads over one bucket
  serve         decides what a host sends, line by line, until its input ends
  check         tells whether its input is the print of a run
  make N SEED   makes a script of N invocations and runs it; reads nothing
  --schema COMMAND  prints the JSON Schema of a command's scripts; reads nothing
  --help        prints this text; reads nothing
  --version     prints the version; reads nothing

Examples:

  smithy_replay replay < examples/teapot.json
  smithy_replay client < examples/client/a_retry_after_503.json
  smithy_replay wait < examples/wait/fifth_poll.json
  smithy_replay waiters < examples/waiters/one_of_two.json
  smithy_replay fleet < examples/fleet/a_retry_each.json
  smithy_replay serve < examples/serve/a_retry_after_503.lines
  smithy_replay check < examples/teapot.txt
  smithy_replay make 3 7
  smithy_replay --schema client

docs/FORMATS.md tells what each command reads and prints, and docs/HOSTS.md
what the lines of serve are. Where words or an
input are refused, standard error says why, and where in the input.

Exit statuses:

  0   done; the last answer of a run, if there is one, is an output or the
      request at the stop point
  1   the words are no command
  2   the input is no script of the command
  3   the input could not be read
  4   the output could not be written
  5   there was no memory
  6   the input, or a number in it or in the words, passes its limit
  10  the last answer is an error of the operation
  11  the fuel was used up
  12  the last answer is a payload of another kind
  13  the text is not the print of a run
  20  a waiter ended with an error
";

/// What `--version` prints.
pub const VERSION: &str = "smithy_replay 0.2.0\n";
