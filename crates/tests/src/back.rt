// A place for what was given back.
use cd_elem::Chunk;
use cd_step::{Back, weight_of};

#[test]
fn back(rt: HostRuntime) {
    let mut back = Back::empty();
    assert!(rt; back.held() == 0);
    back.push(Chunk::block(rt.alloc(), b"ab").expect(&rt, "memory"));
    assert!(rt; back.held() == 3);
    let chunk = back.take().expect(&rt, "what was given back");
    assert!(rt; weight_of(&chunk) == 3);
    assert!(rt; back.take().is_none());
}
