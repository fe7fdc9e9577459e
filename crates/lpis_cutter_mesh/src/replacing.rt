//! Items of a list replaced by others.

use crate::halt::Halt;

/// Puts items in place of so many from a place on.
pub(crate) fn replace(
    items: &mut Vec<u32>,
    at: usize,
    count: usize,
    new: &[u32],
) -> Result<(), Halt> {
    let both = count.min(new.len());
    let end = at.saturating_add(both);
    for (k, item) in new.iter().take(both).enumerate() {
        if let Some(old) = items.get_mut(at.saturating_add(k)) {
            *old = *item;
        }
    }
    for item in new.get(both..).unwrap_or(&[]).iter().rev() {
        if end <= items.len() {
            items.insert(end, *item)?;
        }
    }
    for _ in both..count {
        if end < items.len() {
            items.remove(end);
        }
    }
    Ok(())
}
