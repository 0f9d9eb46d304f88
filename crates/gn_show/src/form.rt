//! How a history is shown.

/// How a step is shown.
#[derive(Clone, Copy)]
pub enum Form {
    /// In plain words, in columns.
    Plain,
    /// As a JSON object.
    Json,
    /// As a row of comma-separated fields for each packet that it admits, refuses, sends, drops or takes.
    Rows,
}

/// What of a history is shown.
#[derive(Clone, Copy)]
pub enum View {
    /// Its steps.
    Steps(Form),
    /// The line of the counters.
    Stats,
}
