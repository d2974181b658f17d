use script_sites::{MAX_FIRST, MAX_HEIGHT, MAX_SITES, MAX_WIDTH, MIN_HEIGHT, MIN_WIDTH, Settings};
use std::alloc::{AllocError, Global};

// A number and a blank, and what follows.
fn number_in(text: &str) -> Option<(u16, &str)> {
    let (word, rest) = text.split_once(' ')?;
    Some((word.parse::<u16>().ok()?, rest))
}

fn settings_of(first: u16, count: u16, width: u16, height: u16) -> Option<Settings> {
    let are_sites = (1..=MAX_FIRST).contains(&first) && (1..=MAX_SITES).contains(&count);
    let is_screen = (MIN_WIDTH..=MAX_WIDTH).contains(&width)
        && (MIN_HEIGHT..=MAX_HEIGHT).contains(&height);
    if !are_sites || !is_screen {
        return None;
    }
    Some(Settings {
        first,
        count,
        width,
        height,
    })
}

/// The sites and the screen that a row tells, what it shows, and its script.
pub(crate) fn row_in(row: &str) -> Option<(Settings, &str, &str)> {
    let (head, script) = row.split_once('\n')?;
    let (first, rest) = number_in(head)?;
    let (count, rest) = number_in(rest)?;
    let (width, rest) = number_in(rest)?;
    let (height, what) = number_in(rest)?;
    Some((settings_of(first, count, width, height)?, what, script))
}

// Puts `abababab` at the end for `4*ab`.
fn spell_many(bytes: &mut Vec<u8>, many: &str) -> Result<(), AllocError> {
    let (count, unit) = many.split_once('*').unwrap_or(("1", many));
    for _ in 0..count.parse::<usize>().unwrap_or(0) {
        bytes.extend_from_slice(unit.as_bytes())?;
    }
    Ok(())
}

/// The bytes of a script. `<4*ab>` stands for `abababab` in it.
pub(crate) fn spelled(alloc: Global, script: &str) -> Result<Vec<u8>, AllocError> {
    let mut bytes = Vec::new(alloc);
    for part in script.split('<') {
        let rest = match part.split_once('>') {
            Some((many, rest)) => {
                spell_many(&mut bytes, many)?;
                rest
            }
            None => part,
        };
        bytes.extend_from_slice(rest.as_bytes())?;
    }
    Ok(bytes)
}
