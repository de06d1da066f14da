use mdr_paths::reached;
use std::alloc::Global;

#[test]
fn reached_from_two_roots(rt: HostRuntime) {
    let alloc = rt.alloc();
    let edges = vec![in alloc;
        vec![in alloc; 2u32, 9].expect(&rt, "memory"),
        vec![in alloc; 3u32].expect(&rt, "memory"),
        vec![in alloc; 4u32, 0].expect(&rt, "memory"),
        Vec::new(alloc),
        Vec::new(alloc),
    ]
    .expect(&rt, "memory");
    let marks = reached(alloc, &edges, &[0, 9]).expect(&rt, "memory");
    assert_eq!(rt;
        marks.as_slice(),
        [true, false, true, false, true].as_slice()
    );
}
