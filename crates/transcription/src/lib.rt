// Between the records of a table and the words of a term, record by record and word by word: the readers and the writer.
#![tactic(auto)]

pub mod reading;
pub mod writing;
