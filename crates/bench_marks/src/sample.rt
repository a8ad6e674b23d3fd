//! A marks file of any number of rows.
use std::alloc::{AllocError, Global};
use std::fmt::Write;

/// The header and so many rows, twenty a round: the round, `mark`, a name of up to twelve
/// letters, a number.
pub fn file(alloc: Global, rows: u32) -> Result<String, AllocError> {
    let mut text = String::from_str(alloc, "round,what,where,number\n")?;
    for row in 0..rows {
        let round = row / 20 + 1;
        let root = row % 997;
        let number = row % 25;
        text.push_str(format!(in alloc; "{round},mark,{root}")?.as_str())?;
        push_letters(&mut text, row)?;
        text.push_str(format!(in alloc; ",{number}\n")?.as_str())?;
    }
    Ok(text)
}

fn push_letters(text: &mut String, row: u32) -> Result<(), AllocError> {
    let letters = row % 13;
    for letter in 0..letters {
        if letter == 0 {
            text.push_str(".")?;
        }
        text.push_str(if (row >> letter) & 1 == 1 { "1" } else { "0" })?;
    }
    Ok(())
}
