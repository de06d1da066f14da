// The code of functions, against what was worked out by hand: C99 6.3.1 for the conversions of integers, 6.3.2 for
// those of pointers, arrays and functions. Statements and declarators are numbered from 1 in each function, and a `for`
// shares its number with its init and its step. Structs, globals and functions are numbered from 0 in the source's order,
// slots from 0 with the parameters first. The services are 1 `kzalloc`, 5 `writel`, 6 `printk`, 7 `request_irq`, 10
// `combolock` and 11 `combounlock`.

mod walk;

use mdr_core::{Func, Program};
use mdr_source::{Refusal, Source, source};
use std::alloc::Global;
use std::process::Abort;
use std::test::Fail;
use walk::{Text, put_function};

/// The network driver, `examples/nic.c`.
const NIC: &str = "#include <linux/module.h>
#define RING 4
#define STATUS 1
enum { IDLE, UP = 2 };
struct buf { u32 len; u8 bytes[8]; struct buf *next; };
struct stats { u32 sent; u32 got; u32 errors; };
struct card { combolock_t lock; u32 state; struct stats st;
\tstruct buf *ring[RING]; u32 head; struct buf *spare; };
struct op { u32 code; s32 (*run)(u32 arg); };
static struct card card;
static void nic_irq(void) {
\tu32 s;
\ts = readl(STATUS);
\tif (s & 1) card.st.sent += 1;
\tif (s & 2) card.st.errors += 1;
\twritel(0, STATUS);
}
static s32 op_state(u32 arg) { card.state = arg; return 0; }
static s32 op_reset(u32 arg) { card.st.sent = 0; card.st.errors = arg; return 0; }
static struct op ops[3] = { {1, op_state}, {2, op_reset}, {0, NULL} };
s32 nic_probe(void) {
\tu32 i; struct buf *b; s32 err;
\tfor (i = 0; i < RING; i += 1) {
\t\tb = kzalloc(struct buf);
\t\tif (!b) return -12;
\t\tb->len = i + 1;
\t\tcard.ring[i] = b;
\t}
\terr = request_irq(nic_irq);
\tif (err) return err;
\tprintk(KERN_INFO \"nic: %u buffers\\n\", i);
\treturn 0;
}
s32 nic_open(void) { card.state = UP; writel(1, 0); return 0; }
__critical s32 nic_transmit(u32 len) {
\tstruct buf *b;
\tcombolock(&card.lock);
\tif (card.state != UP) { combounlock(&card.lock); return -100; }
\tb = card.ring[card.head];
\tb->len = len;
\tcard.head = (card.head + 1) % RING;
\twritel(len, 2);
\tcombounlock(&card.lock);
\treturn 0;
}
s32 nic_ioctl(u32 code, u32 arg) {
\tstruct op *o; s32 r;
\to = ops;
\twhile (o->code) {
\t\tif (o->code == code) { r = o->run(arg); return r; }
\t\to += 1;
\t}
\treturn -25;
}
s32 nic_total(void) {
\tu32 i; u32 t; struct buf *b;
\tt = 0;
\tfor (i = 0; i < RING; i += 1) { b = card.ring[i]; t += b->len; }
\treturn t;
}
";

const PROBE: &str = "slot U32 x 1
slot *struct 0 x 1
slot S32 x 1
S32
1 declare 0
2 declare 1
3 declare 2
4 for {
4 slot 0 = conv U32(Int(S32, 0))
} while Lt(load(slot 0), conv U32(Int(S32, 4))) step {
4 slot 0 = Add U32(load(slot 0), conv U32(Int(S32, 1)))
} do {
5 slot 1 = service 1 of struct 0
6 if not(load(slot 1)) {
7 return neg S32(Int(S32, 12))
} else {
}
8 *load(slot 1).0 = Add U32(load(slot 0), conv U32(Int(S32, 1)))
9 global 0.3[load(slot 0)] = load(slot 1)
}
10 slot 2 = service 7, Fn(0)
11 if load(slot 2) {
12 return load(slot 2)
} else {
}
13 service 6 with a text of 16, load(slot 0)
14 return Int(S32, 0)";

const TRANSMIT: &str = "slot U32 x 1
slot *struct 0 x 1
S32
1 declare 1
2 service 10, address(global 0.0)
3 if Ne(load(global 0.1), conv U32(Int(S32, 2))) {
4 service 11, address(global 0.0)
5 return neg S32(Int(S32, 100))
} else {
}
6 slot 1 = load(global 0.3[load(global 0.4)])
7 *load(slot 1).0 = load(slot 0)
8 global 0.4 = Rem U32(Add U32(load(global 0.4), conv U32(Int(S32, 1))), conv U32(Int(S32, 4)))
9 service 5, load(slot 0), conv U32(Int(S32, 2))
10 service 11, address(global 0.0)
11 return Int(S32, 0)";

const IOCTL: &str = "slot U32 x 1
slot U32 x 1
slot *struct 3 x 1
slot S32 x 1
S32
1 declare 2
2 declare 3
3 slot 2 = decay(global 1)
4 while load(*load(slot 2).0) {
5 if Eq(load(*load(slot 2).0), load(slot 0)) {
6 slot 3 = through load(*load(slot 2).1), load(slot 1)
7 return load(slot 3)
} else {
}
8 slot 2 = move(load(slot 2), Int(S32, 1))
}
9 return neg S32(Int(S32, 25))";

/// What the network driver hasn't: `void *`, an array of a function's own, and integers of other widths.
const MIXED: &str = "void *kept;
u8 mixed(void *p, s8 n) {
\tu16 a[3];
\tu16 *q;
\tu8 *r;
\ts64 w;
\tq = a;
\tr = p;
\tkept = r;
\tw = n - a[1];
\treturn w;
}
";

const MIXED_CODE: &str = "slot *void x 1
slot S8 x 1
object U16 x 3
slot *U16 x 1
slot *U8 x 1
slot S64 x 1
U8
1 declare 2
2 declare 3
3 declare 4
4 declare 5
5 slot 3 = decay(object 2)
6 slot 4 = from_void U8(load(slot 0))
7 global 0 = to_void(load(slot 4))
8 slot 5 = conv S64(Sub S32(conv S32(load(slot 1)), conv S32(load(object 2[Int(S32, 1)]))))
9 return conv U8(load(slot 5))";

/// A function's number in its source, and its code.
type Worked = (usize, &'static str);

/// A function's code is this text.
fn expect_code(rt: &impl Abort, alloc: Global, func: Option<&Func>, code: &str) {
    let mut text = Text::new(alloc);
    if let Some(func) = func {
        put_function(&mut text, func);
    }
    assert_eq!(rt; text.whole(), Some(code));
}

fn expect_codes(rt: &impl Abort, alloc: Global, program: &Program, rows: &[Worked]) {
    for (number, code) in rows {
        expect_code(rt, alloc, program.funcs.as_slice().get(*number), code);
    }
}

fn expect_made(
    rt: &impl Abort,
    alloc: Global,
    made: Result<Source, Refusal>,
    rows: &[Worked],
) -> Result<(), Fail> {
    let told = match &made {
        Ok(source) => {
            expect_codes(rt, alloc, &source.program, rows);
            Ok(())
        }
        Err(_) => Err("the source is a program".into()),
    };
    drop(made);
    told
}

/// The functions of these numbers in a source have these codes.
fn expect_worked(rt: &impl Abort, alloc: Global, text: &str, rows: &[Worked]) -> Result<(), Fail> {
    let made = source(alloc, text.as_bytes())?;
    expect_made(rt, alloc, made, rows)
}

const NIC_CODES: &[Worked] = &[(3, PROBE), (5, TRANSMIT), (6, IOCTL)];

#[test]
fn the_network_drivers_code(rt: HostRuntime) -> Result<(), Fail> {
    expect_worked(&rt, rt.alloc(), NIC, NIC_CODES)
}

const MIXED_CODES: &[Worked] = &[(0, MIXED_CODE)];

#[test]
fn code_with_conversions(rt: HostRuntime) -> Result<(), Fail> {
    expect_worked(&rt, rt.alloc(), MIXED, MIXED_CODES)
}
