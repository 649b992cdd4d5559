ghost use Rattle.std.specs.Prelude.{◌≡◌, ◌+◌, ◌^◌, ◌<◌, ◌≤◌, [], ◌∷◌, ◌++◌, length, OnOk, slice_get, Some};
ghost use Rattle.slice_geometry.specs.UnitLengths.{IsUnitAllowed, ShapesInTurn, shape_length};

use planes::NoMemory;
use std::alloc::Global;
use std::marker::Model;

/// A unit of a stream by its lengths in bytes: where it starts, what stands before its first slice, and its slices.
///
/// A unit without slices has `slices` 0, `a` 1 and `b` 1, and `head` is its length.
#[derive(Clone, Copy, Debug, PartialEq, Eq)]
pub struct UnitShape {
    pub start: u64,
    pub head: u64,
    pub slices: u32,
    pub a: u32,
    pub b: u32,
}

/// The units of a stream so far. Contracts see the list, its bytes in all, and for how many more units there is room.
#[derive(Drop)]
pub struct UnitShapes {
    units: Vec<UnitShape>,
    total: u64,
    spare: usize,
}

impl Model for UnitShapes {
    ghost use Rattle.slice_geometry.specs.UnitLengths.{UnitShapesSeen};

    ghost Value = { UnitShapesSeen };

    ghost use Rattle.slice_geometry.specs.UnitsInside.{AreShapesSound};

    ghost view = { λ u. record { units = u.units.items; total = u.total; spare = u.spare } };

    ghost invariant = { AreShapesSound };
}

impl UnitShapes {
    /// No units.
    pub fn new(alloc: Global) -> UnitShapes
        ensures units { result.units ≡ [] }
        ensures total { result.total ≡ 0 }
    {
        UnitShapes {
            units: Vec::new(alloc),
            total: 0,
            spare: 0,
        }
    }

    /// Makes room for n more units, 1 to 3. The units stay, and so does room that was there, whether or not memory was
    /// found.
    pub fn reserve(&mut self, n: usize) -> Result<(), NoMemory>
        requires some { 1 ≤ n }
        requires most { n ≤ 3 }
        ensures units { self.new.units ≡ self.old.units }
        ensures total { self.new.total ≡ self.old.total }
        ensures room { OnOk result (n ≤ self.new.spare) }
        ensures kept { self.old.spare ≤ self.new.spare }
    {
        self.units.reserve(n)?;
        self.spare = self.spare.max(n);
        Ok(())
    }

    /// Appends a unit that starts where the last one ends.
    pub fn push(&mut self, unit: UnitShape)
        requires room { 1 ≤ self.old.spare }
        requires start { unit.start ≡ self.old.total }
        requires allowed { IsUnitAllowed unit }
        requires most { self.old.total + shape_length unit ≤ 2 ^ 40 }
        ensures units { self.new.units ≡ self.old.units ++ unit ∷ [] }
        ensures total { self.new.total ≡ self.old.total + shape_length unit }
        ensures room { self.new.spare + 1 ≡ self.old.spare }
    {
        let slices = u64::from(unit.slices) * u64::from(unit.a) / u64::from(unit.b);
        self.units.push(unit).unwrap();
        self.total += unit.head + slices;
        self.spare -= 1;
    }

    /// The bytes of all units, at most 2^40. They stand one after another.
    pub fn total(&self) -> u64
        ensures value { result ≡ self.now.total }
        ensures most { result ≤ 2 ^ 40 }
        ensures in_turn { ShapesInTurn 0 self.now.units self.now.total }
    {
        self.total
    }

    /// How many units there are.
    pub fn len(&self) -> usize
        ensures { result ≡ length self.now.units }
    {
        self.units.len()
    }

    /// Unit i.
    pub fn get(&self, i: usize) -> UnitShape
        requires { i < length self.now.units }
        ensures value { slice_get self.now.units i ≡ Some result }
    {
        self.units[i]
    }
}
