// Puts, takes and looks on rings and pools.
use exchange::{Exchange, Pair, Pool, Put, Ring};
use refusal::Refusal;
use std::process::Abort;

// The pair <i,j>.
fn pair(i: usize, j: usize) -> Pair {
    Pair {
        sender: i,
        receiver: j,
    }
}

// Fills an empty pair that holds `most`, and empties it again, oldest first, three times.
fn turns(rt: &impl Abort, ring: &mut Ring, pair: Pair, most: u16) {
    for _ in 0..3 {
        for task in 1..=most {
            assert_eq!(rt; ring.put(pair, task), Ok(Put::Joined));
        }
        assert_eq!(rt; ring.put(pair, 9), Ok(Put::NoVacancy));
        assert_eq!(rt; ring.look(pair), Ok(false));
        assert_eq!(rt; ring.take(pair), Ok(Some(1)));
        assert_eq!(rt; ring.put(pair, 77), Ok(Put::Joined));
        for task in 2..=most {
            assert_eq!(rt; ring.take(pair), Ok(Some(task)));
        }
        assert_eq!(rt; ring.take(pair), Ok(Some(77)));
        assert_eq!(rt; ring.take(pair), Ok(None));
        assert_eq!(rt; ring.look(pair), Ok(true));
    }
}

#[test]
fn rings_of_length_1_2_and_64_wrap_around(rt: HostRuntime) {
    let mut words = [9u16; 15360];
    let mut ring = Ring::over(&mut words);
    assert_eq!(rt; ring.set_up(2, 1), Ok(()));
    turns(&rt, &mut ring, pair(0, 1), 1);
    assert_eq!(rt; ring.set_up(3, 2), Ok(()));
    turns(&rt, &mut ring, pair(2, 1), 2);
    assert_eq!(rt; ring.set_up(16, 64), Ok(()));
    turns(&rt, &mut ring, pair(15, 14), 64);
    assert_eq!(rt; ring.markers(), 16);
    assert_eq!(rt; <Ring<'_> as Exchange>::capacity(), 64);
}

#[test]
fn a_pair_does_not_mix_with_another(rt: HostRuntime) {
    let mut words = [9u16; 6];
    let mut ring = Ring::over(&mut words);
    assert_eq!(rt; ring.set_up(3, 1), Ok(()));
    assert_eq!(rt; ring.put(pair(0, 1), 5), Ok(Put::Joined));
    assert_eq!(rt; ring.put(pair(1, 0), 6), Ok(Put::Joined));
    assert_eq!(rt; ring.put(pair(0, 1), 7), Ok(Put::NoVacancy));
    assert_eq!(rt; ring.look(pair(0, 2)), Ok(true));
    assert_eq!(rt; ring.take(pair(2, 0)), Ok(None));
    assert_eq!(rt; ring.take(pair(1, 0)), Ok(Some(6)));
    assert_eq!(rt; ring.take(pair(0, 1)), Ok(Some(5)));
}

#[test]
fn one_marker_has_no_pair(rt: HostRuntime) {
    let mut none: [u16; 0] = [];
    let mut ring = Ring::over(&mut none);
    assert_eq!(rt; ring.set_up(1, 64), Ok(()));
    assert_eq!(rt; ring.markers(), 1);
    assert_eq!(rt; ring.put(pair(0, 0), 1), Err(Refusal::Unknown));
    assert_eq!(rt; ring.take(pair(0, 1)), Err(Refusal::Unknown));
    assert_eq!(rt; ring.look(pair(1, 0)), Err(Refusal::Unknown));
}

#[test]
fn unknown_pairs_and_task_0_are_refused(rt: HostRuntime) {
    let mut words = [9u16; 1024];
    let mut pool = Pool::over(&mut words);
    assert_eq!(rt; pool.set_up(2), Ok(()));
    assert_eq!(rt; pool.put(pair(0, 1), 0), Err(Refusal::Unknown));
    assert_eq!(rt; pool.put(pair(0, 0), 1), Err(Refusal::Unknown));
    assert_eq!(rt; pool.put(pair(2, 0), 1), Err(Refusal::Unknown));
    assert_eq!(rt; pool.take(pair(0, 2)), Err(Refusal::Unknown));
    assert_eq!(rt; pool.look(pair(1, 1)), Err(Refusal::Unknown));
    assert_eq!(rt; pool.look(pair(0, 1)), Ok(true));
}

#[test]
fn making_tests_range_before_memory_and_changes_nothing_when_refused(rt: HostRuntime) {
    let mut words = [9u16; 2];
    let mut ring = Ring::over(&mut words);
    assert_eq!(rt; ring.set_up(2, 1), Ok(()));
    assert_eq!(rt; ring.put(pair(1, 0), 8), Ok(Put::Joined));
    assert_eq!(rt; ring.set_up(0, 1), Err(Refusal::Range));
    assert_eq!(rt; ring.set_up(17, 1), Err(Refusal::Range));
    assert_eq!(rt; ring.set_up(2, 0), Err(Refusal::Range));
    assert_eq!(rt; ring.set_up(16, 65), Err(Refusal::Range));
    assert_eq!(rt; ring.set_up(2, 2), Err(Refusal::Memory));
    assert_eq!(rt; ring.set_up(3, 1), Err(Refusal::Memory));
    assert_eq!(rt; ring.markers(), 2);
    assert_eq!(rt; ring.take(pair(1, 0)), Ok(Some(8)));
    let mut scarce = [9u16; 1023];
    let mut pool = Pool::over(&mut scarce);
    assert_eq!(rt; pool.set_up(0), Err(Refusal::Range));
    assert_eq!(rt; pool.set_up(17), Err(Refusal::Range));
    assert_eq!(rt; pool.set_up(1), Err(Refusal::Memory));
}

#[test]
fn another_pairs_tasks_fill_the_pool(rt: HostRuntime) {
    let mut words = [9u16; 1024];
    let mut pool = Pool::over(&mut words);
    assert_eq!(rt; pool.set_up(3), Ok(()));
    assert_eq!(rt; pool.put(pair(2, 0), 5000), Ok(Put::Joined));
    for task in 1..=1023 {
        assert_eq!(rt; pool.put(pair(0, 1), task), Ok(Put::Joined));
    }
    assert_eq!(rt; pool.put(pair(1, 0), 7), Ok(Put::NoVacancy));
    assert_eq!(rt; pool.take(pair(0, 1)), Ok(Some(1023)));
    assert_eq!(rt; pool.put(pair(1, 0), 7), Ok(Put::Joined));
    assert_eq!(rt; pool.take(pair(0, 1)), Ok(Some(1022)));
    assert_eq!(rt; pool.take(pair(2, 0)), Ok(Some(5000)));
    assert_eq!(rt; pool.take(pair(1, 0)), Ok(Some(7)));
    assert_eq!(rt; <Pool<'_> as Exchange>::capacity(), 1024);
}
