//! Places of marks: one of each kind.
use jb2_places::{Places, Spot};

#[test]
fn marks_are_placed(rt: HostRuntime) {
    let mut places = Places::new(100);
    assert_eq!(rt;
        places.new_row(1, 0, 4, 10),
        Spot {
            left: 0,
            bottom: 90
        }
    );
    assert_eq!(rt;
        places.same_row(2, -3, 6, 8),
        Spot {
            left: 5,
            bottom: 87
        }
    );
    assert_eq!(rt;
        Places::absolute(3, 20, 5),
        Spot {
            left: 2,
            bottom: 15
        }
    );
}
