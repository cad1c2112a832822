ghost use Rattle.std.specs.Prelude.{◌≡◌, ◌<◌, length, IfOk};

use crate::calling::holds;
use dc_region::Region;
use std::alloc::{AllocError, Global};
use std::test::Fail;

/// A region whose words are 0, 1, 2 and so on.
fn numbered(alloc: Global, words: u32) -> Result<Region, AllocError>
    ensures { IfOk result (λ region. length region ≡ words) }
{
    let mut region = Region::new(alloc, words as usize)?;
    for i in 0..words {
        region.store(i as usize, i);
    }
    Ok(region)
}

/// Makes a region, sets its last word, and lets the region go.
fn make_and_drop(alloc: Global, words: usize, word: u32) -> Result<u32, AllocError>
    requires { 0 < words }
{
    let mut region = Region::new(alloc, words)?;
    region.store(words - 1, word);
    Ok(region.load(words - 1))
}

fn has(region: &Region, i: usize, word: u32, what: &str) -> Result<(), Fail> {
    holds(region.words().get(i) == Some(&word), what)
}

#[test]
fn new_words_are_zero(rt: HostRuntime) -> Result<(), Fail> {
    let region = Region::new(rt.alloc(), 32)?;
    holds(region.words() == [0; 32].as_slice(), "zeros")
}

#[test]
fn a_line_is_copied(rt: HostRuntime) -> Result<(), Fail> {
    let mut region = Region::new(rt.alloc(), 32)?;
    region.store(3, 7);
    region.copy_line(0, 16);
    has(&region, 19, 7, "the copy")?;
    has(&region, 3, 7, "the line")?;
    has(&region, 20, 0, "behind")
}

#[test]
fn words_are_set_in_a_row(rt: HostRuntime) -> Result<(), Fail> {
    let mut region = numbered(rt.alloc(), 8)?;
    region.store_words(5, &[70, 60, 50]);
    region.store_words(8, &[]);
    region.store_words(1, &[20]);
    holds(
        region.words() == [0, 20, 2, 3, 4, 70, 60, 50].as_slice(),
        "words",
    )
}

#[test]
fn a_copied_line_has_16_words(rt: HostRuntime) -> Result<(), Fail> {
    let mut region = numbered(rt.alloc(), 50)?;
    region.copy_line(33, 1);
    for (i, word) in [(0, 0), (1, 33), (16, 48), (17, 17), (33, 33), (49, 49)] {
        has(&region, i, word, "a word")?;
    }
    Ok(())
}

#[test]
fn a_line_may_be_copied_in_part(rt: HostRuntime) -> Result<(), Fail> {
    let mut region = numbered(rt.alloc(), 50)?;
    region.copy_front(33, 1, 3);
    for (i, word) in [(0, 0), (1, 33), (3, 35), (4, 4), (33, 33)] {
        has(&region, i, word, "a word")?;
    }
    Ok(())
}

#[test]
fn loads_and_words_agree(rt: HostRuntime) -> Result<(), Fail> {
    let mut region = Region::new(rt.alloc(), 4)?;
    region.store(0, 0xffff_ffff);
    region.store(2, 5);
    region.store(3, 9);
    region.store(2, 6);
    let want = [0xffff_ffff, 0, 6, 9];
    holds(region.words() == want.as_slice(), "words")?;
    let loads = [
        region.load(0),
        region.load(1),
        region.load(2),
        region.load(3),
    ];
    holds(loads == want, "loads")
}

#[test]
fn a_line_copied_onto_itself_stays(rt: HostRuntime) -> Result<(), Fail> {
    let mut region = numbered(rt.alloc(), 16)?;
    region.copy_line(0, 0);
    let want = [0, 1, 2, 3, 4, 5, 6, 7, 8, 9, 10, 11, 12, 13, 14, 15];
    holds(region.words() == want.as_slice(), "words")
}

#[test]
fn a_region_may_have_no_words(rt: HostRuntime) -> Result<(), Fail> {
    let region = Region::new(rt.alloc(), 0)?;
    holds(region.words().is_empty(), "no words")
}

#[test]
fn a_region_beyond_all_memory_is_refused(rt: HostRuntime) -> Result<(), Fail> {
    for words in [usize::MAX, usize::MAX / 4, usize::MAX / 8, usize::MAX / 16] {
        holds(Region::new(rt.alloc(), words).is_err(), "refused")?;
    }
    Ok(())
}

// The regions have 32 GB in all, so that memory would run out if one were not freed at its end.
#[test]
fn a_region_is_freed_at_its_end(rt: HostRuntime) -> Result<(), Fail> {
    for i in 0..2000u32 {
        let word = make_and_drop(rt.alloc(), 4 * 1024 * 1024, i)?;
        holds(word == i, "its last word")?;
    }
    Ok(())
}
