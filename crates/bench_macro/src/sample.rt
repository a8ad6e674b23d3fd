use std::alloc::{AllocError, Global};
use std::fmt::Write;

// A number that follows the one before without a pattern to the eye.
fn next(seed: u64) -> u64 {
    seed.wrapping_mul(6_364_136_223_846_793_005)
        .wrapping_add(1_442_695_040_888_963_407)
}

fn put_three(text: &mut String, seed: u64, most: u64) -> Result<(), AllocError> {
    let a = (seed >> 33) % most.max(1);
    let b = (seed >> 23) % most.max(1);
    let c = (seed >> 13) % most.max(1);
    write!(text, "{a:>17}{b:>17}{c:>17}\n")
}

fn put_coordinates(text: &mut String, seed: u64) -> Result<(), AllocError> {
    let x = seed >> 12;
    let y = (seed >> 7) % 10_000_000_000_000_000;
    write!(text, "  1.{x:016}e-01 9.{y:016}e+00\n")
}

/// A macro file of about this many bytes, in columns.
pub fn file(alloc: Global, size: u32) -> Result<String, AllocError> {
    // A vertex and an element take 240 bytes.
    let count = u64::from((size / 240).clamp(3, 65535));
    let mut text = String::new(alloc);
    let mut seed = 1;
    write!(
        text,
        "DIM: 2\nDIM_OF_WORLD: 2\n\nnumber of vertices: {count}\nnumber of elements: {count}\n\n"
    )?;
    text.push_str("vertex coordinates:\n")?;
    for _ in 0..count {
        seed = next(seed);
        put_coordinates(&mut text, seed)?;
    }
    text.push_str("\nelement vertices:\n")?;
    for _ in 0..count {
        seed = next(seed);
        put_three(&mut text, seed, count)?;
    }
    text.push_str("\nelement boundaries:\n")?;
    for _ in 0..count {
        seed = next(seed);
        put_three(&mut text, seed, 3)?;
    }
    text.push_str("\nelement neighbours:\n")?;
    for _ in 0..count {
        seed = next(seed);
        put_three(&mut text, seed, count)?;
    }
    text.push_str("\nvertex values:\n")?;
    for _ in 0..count {
        seed = next(seed);
        let value = seed >> 33;
        write!(text, "{value:>13}\n")?;
    }
    text.push_str("\nelement values:\n")?;
    for _ in 0..count {
        seed = next(seed);
        let value = seed >> 10;
        write!(text, "{value:>20}\n")?;
    }
    Ok(text)
}
