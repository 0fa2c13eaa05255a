use recipe::Recipe;
use std::alloc::Global;
use std::process::Abort;
use std::test::Fail;
use theory::{Layer, Theory, Told};

pub(crate) const END: &[u8] = &[0x3F];

// What is said of a file.
#[derive(Clone, Copy, PartialEq, Debug)]
pub(crate) enum Said {
    // The numbers of its cells and of its strands.
    Recipe(u8, u16),
    // A fault outside patterns, and one inside: its number and its place.
    Record(u8, usize),
    Pattern(u8, usize),
    // A fault that no reader tells.
    Other,
}

fn refused(told: Told) -> Said {
    match told.layer {
        Layer::Theory => Said::Pattern(told.number, told.place),
        Layer::Reader => Said::Record(told.number, told.place),
        Layer::Certifier | Layer::Machine => Said::Other,
    }
}

// This is said of the file.
pub(crate) fn says<T: Theory>(rt: &impl Abort, file: &[u8], expected: Said) -> Result<(), Fail> {
    match Recipe::read::<T>(file) {
        Ok(recipe) => {
            assert_eq!(rt; Said::Recipe(recipe.cells(), recipe.strands()), expected);
            Ok(())
        },
        Err(found) => {
            assert_eq!(rt; refused(found.into()), expected);
            Ok(())
        },
    }
}

// This is said of each file.
pub(crate) fn all_say<T: Theory>(rt: &impl Abort, files: &[(&[u8], Said)]) -> Result<(), Fail> {
    for (file, expected) in files {
        says::<T>(rt, file, *expected)?;
    }
    Ok(())
}

// Bytes, and how many times they stand one after another.
pub(crate) type Part = (&'static [u8], usize);

// A file of such parts.
pub(crate) fn built(heap: Global, parts: &[Part]) -> Result<Vec<u8>, Fail> {
    let mut file = Vec::new(heap);
    for (bytes, times) in parts {
        for _ in 0..*times {
            file.extend_from_slice(bytes)?;
        }
    }
    Ok(file)
}

// This is said of each file of parts.
pub(crate) fn all_built_say<T: Theory>(
    rt: &impl Abort,
    heap: Global,
    files: &[(&[Part], Said)],
) -> Result<(), Fail> {
    for (parts, expected) in files {
        let file = built(heap, parts)?;
        says::<T>(rt, &file, *expected)?;
    }
    Ok(())
}
