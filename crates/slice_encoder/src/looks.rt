// How far codes reach at an index, by how many limits magnitudes pass.

ghost use Rattle.std.specs.Prelude.{◌≡◌, ℕ, ◌+◌, ◌*◌, ◌^◌, ◌<◌, ◌≤◌, ◌++◌, length, List, ℤ};
ghost use Rattle.planes.specs.Valued.{valued};
ghost use Rattle.slice_encoder.specs.Looks.{above, last_above, IsLook, IsFew};

use crate::magnitudes::Magnitude;

/// What a list of values holds: how many aren't 0, how many limits past the first their magnitudes pass, and the number of the
/// last that isn't 0, counted from 1, or 0. So their codes are a bit long each, and three more for each that isn't 0, and two
/// for each further limit.
#[derive(Clone, Copy)]
pub struct Look {
    pub some: u64,
    pub more: u64,
    pub last: u64,
}

/// The look at no value.
pub const NO_LOOK: Look = Look {
    some: 0,
    more: 0,
    last: 0,
};

impl Look {
    /// How far the codes reach.
    pub fn reach(self) -> u64
        requires { IsFew self }
        ensures { result ≡ self.last + 3 * self.some + 2 * self.more }
    {
        self.last + 3 * self.some + 2 * self.more
    }

    /// The look at values behind so many others, and at these.
    #[inline(always)]
    pub fn then(self, places: usize, behind: Look) -> Look
        requires some { self.some + behind.some < 2 ^ 64 }
        requires more { self.more + behind.more < 2 ^ 64 }
        requires last { places + behind.last < 2 ^ 64 }
        ensures look { (vs ws : List ℤ) → length vs ≡ places → IsLook self vs → IsLook behind ws
            → IsLook result (vs ++ ws) }
        ensures some { result.some ≡ self.some + behind.some }
        ensures more { result.more ≡ self.more + behind.more }
    {
        Look {
            some: self.some + behind.some,
            more: self.more + behind.more,
            last: if behind.last == 0 {
                self.last
            } else {
                places as u64 + behind.last
            },
        }
    }
}

/// Holds magnitudes against the first four limits of their places. The loop goes on several places at a time.
#[inline(never)]
pub fn look_four<T: Magnitude>(
    sizes: &[T],
    first: &[T],
    second: &[T],
    third: &[T],
    fourth: &[T],
) -> Look
    requires few { length sizes.now ≤ 1024 }
    requires first { length first.now ≡ length sizes.now }
    requires second { length second.now ≡ length sizes.now }
    requires third { length third.now ≡ length sizes.now }
    requires fourth { length fourth.now ≡ length sizes.now }
    ensures some { result.some
        ≡ above (valued T.value T.none first.now) (valued T.value T.none sizes.now)
        (length sizes.now) }
    ensures more { result.more
        ≡ above (valued T.value T.none second.now) (valued T.value T.none sizes.now)
        (length sizes.now)
        + above (valued T.value T.none third.now) (valued T.value T.none sizes.now)
        (length sizes.now)
        + above (valued T.value T.none fourth.now) (valued T.value T.none sizes.now)
        (length sizes.now) }
    ensures last { result.last
        ≡ last_above (valued T.value T.none first.now) (valued T.value T.none sizes.now)
        (length sizes.now) }
{
    let mut some = T::clipped(0);
    let mut more = T::clipped(0);
    let mut last = T::clipped(0);
    let mut number = T::clipped(1);
    for k in 0..sizes.len() {
        let size = sizes[k];
        some = T::counted(some, size, first[k]);
        last = T::later(last, size, first[k], number);
        number = T::next(number);
        more = T::counted(more, size, second[k]);
        more = T::counted(more, size, third[k]);
        more = T::counted(more, size, fourth[k]);
    }
    Look {
        some: T::count_of(some),
        more: T::count_of(more),
        last: T::count_of(last),
    }
}

/// How many magnitudes pass a limit of their places.
#[inline(never)]
pub fn count_above<T: Magnitude>(sizes: &[T], limits: &[T]) -> u64
    requires few { length sizes.now ≤ 1024 }
    requires same { length limits.now ≡ length sizes.now }
    ensures { result ≡ above (valued T.value T.none limits.now) (valued T.value T.none sizes.now)
        (length sizes.now) }
{
    let mut count = T::clipped(0);
    for k in 0..sizes.len() {
        count = T::counted(count, sizes[k], limits[k]);
    }
    T::count_of(count)
}
