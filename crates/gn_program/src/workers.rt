//! The option `--workers` of a load and of a serve.

use gn_rules::MOST_WORKERS;
use gn_words::{NumberOption, OptionRow, Takes};

/// What `--workers` takes.
pub(crate) static WORKERS: NumberOption = NumberOption {
    name: "workers",
    least: 1,
    most: MOST_WORKERS,
    mistake: "--workers takes a number of 1 to 64",
};

/// The option.
pub(crate) const WORKERS_ROW: OptionRow = OptionRow {
    name: "workers",
    letter: Some('w'),
    takes: Takes::Value("V"),
    help: "How many threads route what was admitted, 1 to 64",
};
