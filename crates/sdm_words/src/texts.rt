//! The texts of `version` and `help`, written by scripts/house write manual.

/// The text of `version`, and that of `help`: an array, since a clause can cite one.
pub const TEXTS: [&str; 2] = [
    "\
sdm 0.11.1
rattle-kit-13f logic dac8208d650f15bf
",
    "\
sdm 0.11.1: ETCS speed and distance monitoring of a journey

  sdm run < input                 a row for each reading of a journey
  sdm live < input                an answer to each record as soon as it has come
  sdm display < input             what a driver is shown of each reading
  sdm why < input                 the causes of each reading
  sdm flat A END < lines          one brake curve on level track; A in cm/s^2, END in cm
  sdm trial NUMBER CYCLES         made readings over fixed data, summed up
  sdm upgrade < data              the same data as a data part of version 2
  sdm certify N < input           certificates of the first N covered rows
  sdm check < certificates        whether the claims of certificates hold
  sdm drive NUMBER CYCLES < data  a made train that obeys its emergency brake, summed up
  sdm version                     the versions of the program and of its toolchain
  sdm help                        this text

An input is read to its end, at most 16,777,216 bytes, before the first line is written; by live each record is answered
before more is read.
A reading: read,time,est,min,max,speed,accel,under in 0.1 s; mm, mm, mm; mm/s; cm/s^2; mm/s.
Other places are in cm, other speeds in km/h, other times in 0.1 s, other decelerations in cm/s^2.

More: sdm(1), and docs/FORMATS.md beside the sources or in share/doc of a release.
",
];
