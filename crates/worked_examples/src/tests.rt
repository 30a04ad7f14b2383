// What reading leaves in the tables, on examples.
use heap::{CheckedHeap, ObjectEntry};
use listing::{Settings, SharingRule, read};
use refusal::{Fault, Refusal};

const BLANK: ObjectEntry = ObjectEntry {
    at: 9,
    len: 9,
    first: 9,
    count: 9,
};

#[test]
fn fills_what_it_needs_and_leaves_the_rest(rt: HostRuntime) {
    let mut objects = [BLANK; 3];
    let mut references = [9u16; 4];
    let mut roots = [9u16; 2];
    let mut heap = CheckedHeap::empty(&mut objects, &mut references, &mut roots);
    let text =
        b"cells=12\nwidth=5\nmarkers=2\nshare=both\nobjects=2\nat=0\nlen=2\nrefs=2,0\nat=4\nlen=3\nrefs=1\nroots=1\n";
    assert_eq!(rt;
        read(text, &mut heap),
        Ok(Settings {
            markers: 2,
            share: SharingRule::Both,
        })
    );
    assert_eq!(rt; heap.objects, 2);
    let first = heap.object_table[0];
    assert_eq!(rt;
        first,
        ObjectEntry {
            at: 0,
            len: 2,
            first: 0,
            count: 2,
        }
    );
    let second = heap.object_table[1];
    assert_eq!(rt;
        second,
        ObjectEntry {
            at: 4,
            len: 3,
            first: 2,
            count: 1,
        }
    );
    let third = heap.object_table[2];
    assert_eq!(rt; third, BLANK);
    let reference_0 = heap.reference_table[0];
    assert_eq!(rt; reference_0, 2);
    let reference_2 = heap.reference_table[2];
    assert_eq!(rt; reference_2, 1);
    let reference_3 = heap.reference_table[3];
    assert_eq!(rt; reference_3, 9);
    let root_0 = heap.root_table[0];
    assert_eq!(rt; root_0, 1);
    let root_1 = heap.root_table[1];
    assert_eq!(rt; root_1, 9);
    assert_eq!(rt; heap.sections(), 3);
    assert_eq!(rt; heap.covered(), 5);
}

#[test]
fn a_short_table_is_found_last(rt: HostRuntime) {
    let mut objects = [BLANK; 1];
    let mut references = [9u16; 1];
    let mut roots = [9u16; 1];
    let mut heap = CheckedHeap::empty(&mut objects, &mut references, &mut roots);
    let right =
        b"cells=12\nwidth=5\nmarkers=2\nshare=new\nobjects=1\nat=0\nlen=2\nrefs=0,1\nroots=1\n";
    assert_eq!(rt;
        read(right, &mut heap),
        Err(Fault {
            refusal: Refusal::Memory,
            line: 0,
        })
    );
    let first = heap.object_table[0];
    assert_eq!(rt; first, BLANK);
    let wrong =
        b"cells=12\nwidth=5\nmarkers=2\nshare=new\nobjects=1\nat=0\nlen=2\nrefs=0,1\nroots=2\n";
    assert_eq!(rt;
        read(wrong, &mut heap),
        Err(Fault {
            refusal: Refusal::Stranger,
            line: 9,
        })
    );
    assert_eq!(rt; heap.cells, 1);
}
