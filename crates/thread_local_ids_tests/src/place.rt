//! The places of ids, at both ends of the range and between.
use crate::same::assert_same;
use thread_local_base::Thread;

#[test]
fn places_of_ids(rt: HostRuntime) {
    let places = [
        (0, 0, 0, 1),
        (1, 1, 0, 2),
        (2, 1, 1, 2),
        (3, 2, 0, 4),
        (19, 4, 4, 16),
        (1234, 10, 211, 1024),
        (
            9223372036854775806,
            62,
            4611686018427387903,
            4611686018427387904,
        ),
    ];
    for (id, bucket, index, size) in places {
        assert!(rt; id < 9223372036854775807);
        let thread = Thread::new(id);
        assert_same(
            &rt,
            (
                thread.bucket,
                thread.index,
                thread.bucket_size(),
                thread.id(),
            ),
            (bucket, index, size, id),
        );
    }
}
