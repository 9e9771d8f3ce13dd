// The first push of a ticket among the used entries.
use super::samples::{pop, push};
use history::pushes::first_push;

#[test]
fn first_of_a_ticket(rt: HostRuntime) {
    let entries = [
        pop(0, 1, 1u8),
        push(0, 0, 2u8),
        push(1, 1, 3u8),
        push(2, 1, 4u8),
    ];
    assert_eq!(rt; first_push(&entries, 4, 1), Some(3));
    assert_eq!(rt; first_push(&entries, 9, 1), Some(3));
    assert_eq!(rt; first_push(&entries, 2, 1), None);
    assert_eq!(rt; first_push(&entries, 2, 0), Some(2));
    assert_eq!(rt; first_push(&entries, 1, 0), None);
    assert_eq!(rt; first_push(&entries, 0, 0), None);
    assert_eq!(rt; first_push(&entries, 4, 2), None);
}
