//! Tables of `sqlite` as bags of records: what one statement makes of the rows of a table, and what
//! a call of it leaves of a connection, over any schema and any type of records.
//!
//! There is no code here: begin with `specs/Keeps.antt`, `specs/Calls.antt` and `specs/Reads.antt`,
//! the words that contracts cite. The lemmas stand in `proofs`, from the rows of one table
//! (`Inserting`, `Replacing`, `Dropping`, `Finding`) up to whole calls (`Statements`, `Refusing`,
//! `Reading`).
#![tactic(auto)]
