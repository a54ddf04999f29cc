// Images, as a caller sees them read and mirrored.
use mirror::refusal::MirrorRefusal;
use mirror::{mirror_size, write_mirror};
use script::reader::read;

const ADDER: [u8; 17] = [8, 13, 1, 9, 40, 2, 0, 1, 2, 6, 0, 3, 0, 10, 40, 14, 1];

#[test]
fn refused_images_tell_number_and_position(rt: HostRuntime) {
    let table: [(&[u8], (u32, usize)); 14] = [
        (&[], (2, 0)),
        (&[0, 172], (1, 0)),
        (&[0], (3, 0)),
        (&[8, 129], (3, 0)),
        (&[2, 99, 0, 0, 172], (1, 3)),
        (&[2, 99, 0, 21], (2, 4)),
        (&[1, 21, 0, 0, 172], (2, 3)),
        (&[1, 17, 0], (3, 1)),
        (&[2, 21, 0, 7, 1], (3, 2)),
        (&[2, 13, 1, 13, 1], (4, 2)),
        (&[1, 15, 1], (4, 1)),
        (&[2, 5, 1, 11, 1], (4, 3)),
        (&[1, 14, 1], (4, 1)),
        (&[2, 21, 0, 5, 1], (4, 2)),
    ];
    for (bytes, told) in table {
        let refusal = read(bytes).err();
        assert_eq!(rt;
            refusal.map(|refusal| refusal.number_and_position()),
            Some(told)
        );
    }
}

#[test]
fn a_mirror_is_written_at_the_front_of_a_buffer(rt: HostRuntime) {
    let script = read(&ADDER).expect(&rt, "the adder is a script");
    assert_eq!(rt; script.count(), 8);
    assert_eq!(rt; mirror_size(&script), 17);
    let mut buffer = [7u8; 18];
    assert_eq!(rt; write_mirror(&script, &mut buffer), Ok(17));
    assert_eq!(rt;
        buffer,
        [8, 9, 1, 5, 40, 2, 0, 15, 0, 15, 0, 15, 0, 6, 40, 10, 1, 7]
    );
    let mut short = [7u8; 16];
    assert_eq!(rt;
        write_mirror(&script, &mut short),
        Err(MirrorRefusal::BufferTooShort)
    );
    assert_eq!(rt; short, [7u8; 16]);
}
