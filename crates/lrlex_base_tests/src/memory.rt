//! Out of memory: in heaps of rising sizes, each of which refuses a later request than the ones before. What a program sees of
//! the calls over the usual heap, `./dev oom` shows.
use crate::tokens::{renamed, tokens_of};
use linked_list_allocator::LocalHeap;
use lrlex_base::{Edit, NewlineCache, Span};
use lrlex_tokens::{CTTokenMapBuilder, ct_token_map};
use std::collections::HashMap;

#[test]
fn a_piece_without_a_newline_takes_no_memory(rt: HostRuntime) {
    let none = LocalHeap::new(rt.alloc(), 1).expect(&rt, "memory");
    let mut cache = NewlineCache::new(&none);
    let fed = cache.feed("abc").is_ok() && cache.fed() == 3;
    let made = NewlineCache::from_str(&none, "abc").is_ok();
    let refused = NewlineCache::from_str(&none, "a\n").is_err();
    assert!(rt; fed && made && refused);
}

/// Whether a piece is refused, where the cache of what was fed is what it was, and takes a piece without a newline even now.
/// None where the cache has changed.
fn is_refused(cache: &mut NewlineCache<&LocalHeap>) -> Option<bool> {
    let before = cache.fed();
    if before >= 10_000 {
        return None;
    }
    let last = cache.span_line_bytes(Span::new(before, before));
    if cache.feed("a\nb\nc\n\n\nd").is_ok() {
        return Some(false);
    }
    if cache.fed() != before || cache.span_line_bytes(Span::new(before, before)) != last {
        return None;
    }
    let taken = cache.feed("abc").is_ok() && cache.fed() == before + 3;
    if taken { Some(true) } else { None }
}

/// Whether one of eight pieces is refused by the heap.
fn refuses_a_piece(heap: &LocalHeap) -> Option<bool> {
    let mut cache = NewlineCache::new(heap);
    for _ in 0..8 {
        if is_refused(&mut cache)? {
            return Some(true);
        }
    }
    Some(false)
}

#[test]
fn a_refused_piece_changes_no_cache(rt: HostRuntime) {
    let (mut fed, mut made) = (0u32, 0u32);
    for size in 1..=64usize {
        let heap = LocalHeap::new(rt.alloc(), size * 32).expect(&rt, "memory");
        if refuses_a_piece(&heap).expect(&rt, "the same cache") {
            fed = fed.saturating_add(1);
        }
        let small = LocalHeap::new(rt.alloc(), size).expect(&rt, "memory");
        if NewlineCache::from_str(&small, "a\nb\n").is_err() {
            made = made.saturating_add(1);
        }
    }
    assert!(rt; fed > 8 && made > 0, "{fed} and {made}");
}

/// Whether the edit of this cache, which is of a text of at least four bytes, is made. None where it is refused and the cache
/// has changed, or made and the cache has another length.
fn is_edited(cache: &mut NewlineCache<&LocalHeap>) -> Option<bool> {
    let before = cache.fed();
    if before < 4 || before >= 10_000 {
        return None;
    }
    let lines = cache.span_line_bytes(Span::new(4, 4));
    if cache.edit(Span::new(1, 2), "\n\n\n\n\n\n\n\n").is_ok() {
        return if cache.fed() == before + 7 {
            Some(true)
        } else {
            None
        };
    }
    let same = cache.fed() == before && cache.span_line_bytes(Span::new(4, 4)) == lines;
    if same { Some(false) } else { None }
}

#[test]
fn a_refused_edit_changes_no_cache(rt: HostRuntime) {
    let (mut edited, mut refused) = (0u32, 0u32);
    for size in 1..=64usize {
        let heap = LocalHeap::new(rt.alloc(), size * 32).expect(&rt, "memory");
        let Ok(mut cache) = NewlineCache::from_str(&heap, "a\nb\nc") else {
            continue;
        };
        if is_edited(&mut cache).expect(&rt, "the same cache") {
            edited = edited.saturating_add(1);
        } else {
            refused = refused.saturating_add(1);
        }
    }
    assert!(rt; edited > 8 && refused > 1, "{edited} and {refused}");
}

const NEW: &str = "aabcdefghijklmnopqrstuvwxyzabcdefghijklmnopqrstuvwxyzc";

#[test]
fn a_refused_edit_makes_no_text(rt: HostRuntime) {
    let edit = Edit {
        removed: Span::new(1, 2),
        put: "abcdefghijklmnopqrstuvwxyzabcdefghijklmnopqrstuvwxyz",
    };
    let none = LocalHeap::new(rt.alloc(), 1).expect(&rt, "memory");
    assert!(rt; edit.fits("abc") && edit.apply(&none, "abc").is_err());
    let roomy = LocalHeap::new(rt.alloc(), 4096).expect(&rt, "memory");
    let made = edit.apply(&roomy, "abc").expect(&rt, "memory");
    assert!(rt; made.as_str() == NEW);
}

const MODULE: &str =
    "mod x {\n    pub const T_PLUS: u8 = 0;\n    pub const T_ID: u8 = 1;\n    #[allow(dead_code)]\n    pub const TOK_IDS: &[u8] = &[0, 1];\n}\n";

/// What a builder's three calls came to over a heap.
#[derive(Clone, Copy)]
enum Came {
    NewRefused,
    RenameRefused,
    BuildRefused,
    Made,
    Wrong,
}

/// What the builder's calls come to, of which those before the one that counts have roomy heaps.
fn came_of<'h>(
    new: &'h LocalHeap,
    rename: &'h LocalHeap,
    build: &'h LocalHeap,
    tokens: &HashMap<String, u8>,
    renames: &HashMap<&str, &str>,
) -> Came {
    let Ok(builder) = CTTokenMapBuilder::new(new, "x", "u8", tokens) else {
        return Came::NewRefused;
    };
    let Ok(builder) = builder.rename_map(rename, Some(renames)) else {
        return Came::RenameRefused;
    };
    let Ok(answer) = builder.build(build) else {
        return Came::BuildRefused;
    };
    let Ok(text) = answer else {
        return Came::Wrong;
    };
    if text.as_str() == MODULE {
        Came::Made
    } else {
        Came::Wrong
    }
}

/// Counts what the calls came to.
fn count(counts: &mut [u32; 5], came: Came) {
    let index = match came {
        Came::NewRefused => 0,
        Came::RenameRefused => 1,
        Came::BuildRefused => 2,
        Came::Made => 3,
        Came::Wrong => 4,
    };
    counts[index] = counts[index].saturating_add(1);
}

#[test]
fn a_refused_module_is_no_fault(rt: HostRuntime) {
    let tokens = tokens_of(&rt, rt.alloc(), "+,ID", 0);
    let renames = renamed(&rt, rt.alloc(), "+", "PLUS");
    let roomy = LocalHeap::new(rt.alloc(), 4096).expect(&rt, "memory");
    let mut counts = [0u32; 5];
    for size in 1..=32usize {
        let heap = LocalHeap::new(rt.alloc(), size * 16).expect(&rt, "memory");
        count(
            &mut counts,
            came_of(&heap, &roomy, &roomy, &tokens, &renames),
        );
        count(
            &mut counts,
            came_of(&roomy, &heap, &roomy, &tokens, &renames),
        );
        count(
            &mut counts,
            came_of(&roomy, &roomy, &heap, &tokens, &renames),
        );
    }
    let [new, renamed, built, made, wrong] = counts;
    assert!(rt;
        new > 3 && renamed > 3 && built > 3 && made > 3 && wrong == 0,
        "{counts:?}"
    );
}

const ONE_TOKEN: &str =
    "#[allow(dead_code)]\nmod x {\n    pub const T_PLUS: u8 = 3;\n    #[allow(dead_code)]\n    pub const TOK_IDS: &[u8] = &[3];\n}\n";

#[test]
fn a_refused_module_in_one_call_is_no_fault(rt: HostRuntime) {
    let tokens = tokens_of(&rt, rt.alloc(), "+", 3);
    let renames = renamed(&rt, rt.alloc(), "+", "PLUS");
    let (mut made, mut refused) = (0u32, 0u32);
    for size in 1..=64usize {
        let heap = LocalHeap::new(rt.alloc(), size * 64).expect(&rt, "memory");
        match ct_token_map(&heap, "x", "u8", &tokens, Some(&renames)) {
            Ok(Ok(text)) => {
                assert!(rt; text.as_str() == ONE_TOKEN);
                made = made.saturating_add(1);
            }
            Ok(Err(_fault)) => panic!(rt; "a fault"),
            Err(_) => refused = refused.saturating_add(1),
        }
    }
    assert!(rt; made > 8 && refused > 8, "{made} and {refused}");
}
