//! What `--help` and `--version` print.

/// The commands, with their words.
pub(crate) const HELP: &str = "\
splitstore - a block store for the chain data of a Filecoin node

splitstore init mode=discard [KEY=VALUE ..]
    makes a store in the current folder

    KEY        VALUE                 DEFAULT
    mode       discard               none, it has to be named
    depth      0 to 2^62             3600
    threshold  1 to 2^62             4500
    batch      1 to 4096             256
    rows       1 to 4294967295       4294967295
    limit      65536 to 2^40         1099511627776

    The keys come in any order, each at most once. A number is decimal, without
    a sign and without leading zeros.

        depth      how many epochs behind the head a compaction's edge lies
        threshold  how many epochs behind the head the last edge lies before
                   a compaction is due
        batch      how many blocks a step of a compaction handles
        rows       how many CIDs may be kept
        limit      how many bytes a log file may have

splitstore trace
    reads a script, makes its calls on the store of the current folder and
    prints each with its answer

splitstore import [head=yes|head=no]
    puts the blocks of the CAR on standard input in the store of the current
    folder, and sets its roots as head, unless head=no; prints how many
    sections there were, how many blocks were new, and the height

splitstore info
    prints the settings of the store, and what it counts

splitstore --help
    prints this page

splitstore --version
    prints the version

Example: splitstore init mode=discard depth=900 batch=64
";

/// The version.
pub(crate) const VERSION: &str = "splitstore 0.1.0\n";
