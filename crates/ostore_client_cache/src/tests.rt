use super::*;
use ostore_base::{OutOfMemory, PageNo};

/// What is in a cache, from the page that was used least recently on: how many pages, taken out one by one.
fn in_turn(cache: &mut Cache, page: u32) -> bool {
    cache.image(PageNo(page)).is_some()
}

#[test]
fn the_least_recently_used_page_is_dropped(rt: HostRuntime) -> Result<(), OutOfMemory> {
    let mut cache = Cache::new(rt.alloc(), 2)?;
    cache.admit(PageNo(5))?;
    cache.use_again(PageNo(5));
    cache.admit(PageNo(7))?;
    cache.use_again(PageNo(7));
    assert!(rt; cache.is_full());
    cache.retain(PageNo(7));
    cache.retain(PageNo(5));
    assert_eq!(rt; cache.used(), 0);
    assert_eq!(rt; cache.drop_oldest(), None);
    cache.admit(PageNo(6))?;
    assert_eq!(rt; cache.drop_oldest(), Some(PageNo(7)));
    cache.use_again(PageNo(6));
    cache.use_again(PageNo(5));
    assert!(rt; in_turn(&mut cache, 5) && in_turn(&mut cache, 6) && !in_turn(&mut cache, 7));
    cache.forget(PageNo(6));
    assert_eq!(rt; cache.used(), 1);
    Ok(())
}
