//! `words` reads the tables, `setters` sets keys of base data by their names, `plain` has plain data. A test owns its data
//! and supervisors in one function and judges them in another, which takes them by reference: the proof of a function
//! counts what each of its exits drops.

mod braking;
mod ceiling;
mod certify;
mod curve;
mod decel;
mod display;
mod drive;
mod limits;
mod motion;
mod national;
mod num;
mod plain;
mod release;
mod report;
mod setters;
mod speed;
mod state;
mod supervisor;
mod targets;
mod text;
mod track;
mod train;
mod words;
