// Deques of numbers and of pairs of numbers, over a part of a stretch.
use deque::{Deque, Ends};
use refusal::Refusal;

#[test]
fn pushes_and_pops_go_round_the_part(rt: HostRuntime) {
    let mut stretch = [9u16; 5];
    let mut stack = Deque::over(&mut stretch[1..4], Ends::fresh());
    assert_eq!(rt; stack.push(1), Ok(()));
    assert_eq!(rt; stack.push(2), Ok(()));
    assert_eq!(rt; stack.pop_bottom(), Some(1));
    assert_eq!(rt; stack.push(3), Ok(()));
    assert_eq!(rt; stack.push(4), Ok(()));
    assert_eq!(rt; stack.push(5), Err(Refusal::Full));
    assert_eq!(rt; stack.pop_top(), Some(4));
    assert_eq!(rt; stack.ends(), Ends { first: 1, held: 2 });
    assert_eq!(rt; stretch, [9, 4, 2, 3, 9]);
}

#[test]
fn saved_ends_go_on_where_they_were(rt: HostRuntime) {
    let mut places = [(0u16, 0u16); 2];
    let mut runs = Deque::over(&mut places, Ends::fresh());
    assert!(rt; runs.pop_top().is_none());
    assert_eq!(rt; runs.push((2, 2)), Ok(()));
    assert_eq!(rt; runs.push((6, 4)), Ok(()));
    let ends = runs.ends();
    let mut again = Deque::over(&mut places, ends);
    assert!(rt; again.pop_bottom() == Some((2, 2)));
    assert!(rt; again.pop_top() == Some((6, 4)));
    assert!(rt; again.pop_bottom().is_none());
}

#[test]
fn ends_that_fit_no_deque_are_drawn_in(rt: HostRuntime) {
    let mut places = [1u16, 2, 3];
    let mut stack = Deque::over(&mut places, Ends { first: 7, held: 9 });
    assert_eq!(rt; stack.ends(), Ends { first: 0, held: 3 });
    assert_eq!(rt; stack.push(4), Err(Refusal::Full));
    assert_eq!(rt; stack.pop_top(), Some(3));
    let mut none: [u16; 0] = [];
    let mut nothing = Deque::over(&mut none, Ends { first: 1, held: 1 });
    assert_eq!(rt; nothing.push(4), Err(Refusal::Full));
    assert_eq!(rt; nothing.pop_bottom(), None);
}
