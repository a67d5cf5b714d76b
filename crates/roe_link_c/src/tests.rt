// Plans in memory, and what a caller gets of them.
use crate::roe_check;
use std::test::Fail;

/// One carrier of one sample in each frame, and one flow of one frame in a packet.
const PLAN: &str =
    "version = 1\noption = 1\nmode = \"bytes\"\nplayout = 2\n[[carrier]]\nmethod = 1\ns = 1\nk = 1\nm = 8\nstart = 0\nsize = 16\n[[flow]]\nid = 7\ndst = \"020000000001\"\nsrc = \"020000000002\"\ncontrol = true\ncarriers = [0]\nframes = 1\nlmin = 0\nlmax = 2\ncap = 3\np = 4\nq = 4\n";

/// Its delay is 2 + 1 frames, and the packets of the ticks t - 2 to t are held.
const YES: &str = "yes\ncarrier 0 delay 3\nflow 0 holds 3\n";

/// A plan, the room for its text, the code, and the text.
const ROWS: [(&str, usize, i32, &str); 6] = [
    (PLAN, 38, 0, YES),
    (PLAN, 37, 0, YES),
    (PLAN, 36, 9, YES),
    (PLAN, 0, 9, YES),
    ("version", 38, 3, "plan toml\n"),
    ("", 38, 3, "plan missing version\n"),
];

#[test]
fn a_text_is_given_where_there_is_room(rt: HostRuntime) -> Result<(), Fail> {
    for (plan, room, code, text) in &ROWS {
        let mut buffer = [b'-'; 38];
        let mut written = 0;
        assert!(rt; *room <= buffer.len());
        let result = roe_check(
            rt.alloc(),
            plan.as_bytes(),
            &mut buffer[..*room],
            &mut written,
        );
        assert_eq!(rt; result, *code);
        assert_eq!(rt; written, text.len());
        let given = if *code == 9 { 0 } else { text.len() };
        assert!(rt; given <= text.len());
        assert_eq!(rt; &buffer[..given], &text.as_bytes()[..given]);
        assert!(rt; buffer[given..].iter().all(|octet| *octet == b'-'));
    }
    Ok(())
}
