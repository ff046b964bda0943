// Why the program ends with status 1.
use fold_report::FoldReportError;
use inspection::InspectionError;
use report::ReportError;
use settle_report::SettleReportError;
use std::alloc::AllocError;
use std::io;
use thiserror::Error;

// What is wrong with a file.
#[derive(Debug, Drop, Error)]
pub enum FileError {
    // It could not be read or written.
    #[error(transparent)]
    Access(#[from] io::Error),
    // What it holds was not accepted.
    #[error(transparent)]
    Content(#[from] ReportError),
    #[error(transparent)]
    Listing(#[from] InspectionError),
    #[error(transparent)]
    Fold(#[from] FoldReportError),
    #[error(transparent)]
    Settle(#[from] SettleReportError),
}

#[derive(Debug, Drop, Error)]
pub enum Failure {
    #[error("not a command with its files: tebulgai help lists them")]
    Usage,
    #[error("{path}: {error}")]
    File { path: String, error: FileError },
    // Overrides, keys or tables were refused, and the report says which.
    #[error("{n} {noun}", n = *.0, noun = if *.0 == 1 {"refusal"} else {"refusals"})]
    Refusals(usize),
    // An error of the output, since errors of files are given their path.
    #[error("the output was not written: {0}")]
    Output(#[from] io::Error),
    #[error("memory ran out")]
    OutOfMemory(#[from(alloc)] AllocError),
}
