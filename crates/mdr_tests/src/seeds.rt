// The texts of some seeds, and what is printed, against values from outside.

use mdr_core::OutOfMemory;
use mdr_gen::{Counts, answer_text, generate};
use std::alloc::Global;

const DRIVER: &str = "struct node { u32 v; struct node *next; };
struct node *head;
u32 count;
u32 sum;
__critical void note(u32 x) { sum = sum + x; }
void add(u32 v) { struct node *p; p = kzalloc(struct node); if (!p) { return; } p->v = v; p->next = head; head = p; count += 1; }
void walk(void) { struct node *p; u32 s; s = 0; p = head; while (p) { s += p->v; p = p->next; } note(s); }
void drop(void) { struct node *p; p = head; if (!p) { return; } head = p->next; kfree(p); count -= 1; }
";

const SCRIPTS: &[(u64, u64, &str)] = &[
    (1, 0, ""),
    (1, 1, "call walk\n"),
    (1, 3, "call walk\ncall add 438\ncall add 665\n"),
    (
        0,
        5,
        "call drop\ncall add 222\ncall add 640\ncall add 290\ncall add 172\n",
    ),
    (
        u64::MAX,
        4,
        "call add 191\ncall drop\ncall add 614\ncall walk\n",
    ),
    (
        7,
        6,
        "call walk\ncall drop\ncall add 818\ncall add 927\ncall add 105\ncall drop\n",
    ),
];

fn are(texts: &(Vec<u8>, Vec<u8>), script: &str) -> bool {
    texts.0.as_slice() == DRIVER.as_bytes() && texts.1.as_slice() == script.as_bytes()
}

fn makes(alloc: Global, row: &(u64, u64, &str)) -> Result<bool, OutOfMemory> {
    let texts = generate(alloc, row.0, row.1)?;
    let same = are(&texts, row.2);
    drop(texts);
    Ok(same)
}

#[test]
fn seeds_make_their_scripts(rt: HostRuntime) {
    for row in SCRIPTS {
        assert!(rt;
            makes(rt.alloc(), row).expect(&rt, "memory"),
            "not so: {row:?}"
        );
    }
}

#[test]
fn an_answer_has_four_lines(rt: HostRuntime) {
    let counts = Counts {
        ticks: 32,
        messages: 18,
        live: 7,
    };
    let text = answer_text(rt.alloc(), 0, 5, counts).expect(&rt, "memory");
    assert!(rt; text.as_slice() == b"gen 0 5\nticks 32\nmessages 18\nlive 7\n".as_slice());
}
