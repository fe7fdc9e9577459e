//! Comparisons that report what was found.

use std::test::Fail;

/// Fails unless the texts are equal.
fn expect(told: &str, wanted: &str) -> Result<(), Fail> {
    if told == wanted {
        return Ok(());
    }
    Err(Fail::new(format_args!("{told} in place of {wanted}")))
}

/// Fails unless a run wrote this text and answered this status.
pub fn expect_answer(out: &[u8], answer: u8, text: &str, status: u8) -> Result<(), Fail> {
    expect(str::from_utf8(out).unwrap_or("no text"), text)?;
    if answer != status {
        return Err(Fail::new(format_args!("status {answer} at {text}")));
    }
    Ok(())
}
