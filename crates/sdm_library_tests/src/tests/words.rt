//! How the tables of the tests are read: their columns, and the numbers in them.

/// As many columns as the widest table has.
const MOST_COLUMNS: usize = 7;

/// The columns of a line of a table, as they stand; an empty one for each that is wanting.
pub fn columns<'a>(line: &'a str) -> [&'a str; MOST_COLUMNS] {
    let mut found = [""; MOST_COLUMNS];
    for (i, column) in line.split('|').enumerate() {
        if i < MOST_COLUMNS {
            found[i] = column;
        }
    }
    found
}

/// The columns of a line of a table, without the spaces around them.
pub fn fields<'a>(line: &'a str) -> [&'a str; MOST_COLUMNS] {
    let mut found = columns(line);
    for i in 0..MOST_COLUMNS {
        found[i] = found[i].trim();
    }
    found
}

/// The number that a word writes.
pub fn number(word: &str) -> Result<i64, &'static str> {
    match word.parse::<i64>() {
        Ok(number) => Ok(number),
        Err(_) => Err("not a number"),
    }
}

/// The number of 32 bits that a word writes.
pub fn natural(word: &str) -> Result<u32, &'static str> {
    match word.parse::<u32>() {
        Ok(number) => Ok(number),
        Err(_) => Err("not a natural number"),
    }
}
