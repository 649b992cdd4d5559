// Bits put into a room one after another, whole bytes at a time.

ghost use Rattle.std.specs.Prelude.{◌≡◌, ◌+◌, ◌-◌, ◌*◌, ◌^◌, ◌<◌, ◌≤◌, ◌++◌, length, take};
ghost use Rattle.std.specs.Int.{bytes_high_first};
ghost use Rattle.bit_codes.specs.Bits.{digits_below};
ghost use Rattle.slice_encoder.specs.BitQueues.{bits_so_far, HasRoom, IsSent};

/// How far a room is written: whole bytes, and the bits behind them, which wait as the last digits of a number until they
/// fill some. What stands above them in the number is of no meaning.
#[derive(Clone, Copy)]
pub struct BitQueue {
    pub whole: usize,
    pub count: u32,
    pub number: u64,
}

// Stores as many of a word's bytes as there is room for. It is rare, and so stays out of the loops.
#[inline(never)]
fn store_tail(room: &mut [u8], whole: usize, word: u64)
    requires inside { whole ≤ length room.old }
    requires few { length room.old - whole < 8 }
    ensures { room.new ≡ take whole room.old
        ++ take (length room.old - whole) (bytes_high_first 8 word) }
{
    let few = room.len() - whole;
    room[whole..].copy_from_slice(&word.to_be_bytes()[..few]);
}

// Stores the whole bytes of those that wait, by a word of eight bytes: what it leaves behind them is stored over later.
#[inline(always)]
fn store_whole(room: &mut [u8], queue: BitQueue) -> BitQueue
    requires few { queue.count < 64 }
    requires room { 8 * queue.whole + queue.count ≤ 8 * length room.old }
    ensures waits { result.count < 8 }
    ensures place { 8 * result.whole + result.count ≡ 8 * queue.whole + queue.count }
    ensures text { bits_so_far room.new result ≡ bits_so_far room.old queue }
{
    let word = queue.number << 1 << (63 - queue.count);
    if room.len() - queue.whole >= 8 {
        room[queue.whole..queue.whole + 8].copy_from_slice(&word.to_be_bytes());
    } else {
        store_tail(room, queue.whole, word);
    }
    BitQueue {
        whole: queue.whole + (queue.count / 8) as usize,
        count: queue.count % 8,
        number: queue.number,
    }
}

// Puts the last `n` binary digits of a number behind those that wait.
#[inline(always)]
fn waiting(queue: BitQueue, number: u64, n: u32) -> BitQueue
    requires few { queue.count + n < 64 }
    requires small { number < 2 ^ n }
    ensures whole { result.whole ≡ queue.whole }
    ensures count { result.count ≡ queue.count + n }
    ensures text { digits_below result.count result.number
        ≡ digits_below queue.count queue.number ++ digits_below n number }
{
    BitQueue {
        whole: queue.whole,
        count: queue.count + n,
        number: (queue.number << n) + number,
    }
}

/// Puts the last `n` binary digits of a number into the room.
#[inline(always)]
pub fn put_bits(room: &mut [u8], queue: BitQueue, number: u64, n: u32) -> BitQueue
    requires few { n ≤ 56 }
    requires small { number < 2 ^ n }
    requires room { HasRoom (length room.old) queue n }
    ensures { IsSent room.old queue room.new result (digits_below n number) }
{
    store_whole(room, waiting(queue, number, n))
}
