//! Sums of terms with any ordered keys, merged as they arrive.
//!
//! The terms stand in a tree by their keys. A term that arrives is added where its key stands, so that no list is built
//! anew. What is added at once is one pass: each entry that it changes remembers the coefficient before, so a pass that
//! runs out of memory is undone with no memory. A coefficient that becomes 0 stays in the tree until its key is the
//! greatest; it counts for nothing.

ghost use Rattle.nc_algebra.specs.Sums.{SameSum, Term};
ghost use Rattle.nc_poly.specs.Keeping.{EndsInZero, IsTopped, added, before_at, fresh, now_of, terms_by};
ghost use Rattle.nc_poly.specs.Ordered.{AllBelow, AreResiduesBy, Descends, listed};
ghost use Rattle.std.specs.BTreeMap.{IsOrdered, btree_map_len, get, insert_entry};
ghost use Rattle.std.specs.Option.{unwrap_or};
ghost use Rattle.std.specs.Ordering.{eq_by_cmp};
ghost use Rattle.std.specs.Prelude.{All, Bool, IfSome, IsNone, IsTrue, List, OnErr, OnOk, [], false, nat_eq, not, ℕ, ◌%◌, ◌+◌, ◌++◌, ◌<◌, ◌∷◌, ◌≡◌, ◌≤◌, ◌↔◌};

use nc_field::{Prime, Residue};
use std::alloc::{AllocError, Global};
use std::collections::BTreeMap;
use std::marker::Model;

/// What stands beside a key: its coefficient, and in which pass it was last changed, from what.
#[derive(Clone, Copy)]
struct Slot {
    now: Residue,
    before: Residue,
    pass: u64,
}

impl Slot {
    /// A coefficient 0, new in this pass.
    fn fresh(pass: u64) -> Slot
        ensures { result ≡ fresh pass }
    {
        Slot {
            now: 0,
            before: 0,
            pass,
        }
    }

    /// Adds to the coefficient.
    fn add(&mut self, pass: u64, p: Prime, c: Residue)
        requires first { self.old.now < p }
        requires second { c < p }
        ensures { self.new ≡ added pass p c self.old }
    {
        if self.pass != pass {
            self.before = self.now;
            self.pass = pass;
        }
        self.now = p.add(self.now, c);
    }

    /// Undoes the pass, and tells whether the coefficient is not 0.
    fn go_back(&mut self, pass: u64) -> bool
        ensures value { self.new.now ≡ before_at pass self.old }
        ensures stamp { self.new.pass ≡ self.old.pass }
        ensures kept { result ≡ not (nat_eq self.new.now 0) }
    {
        if self.pass == pass {
            self.now = self.before;
        }
        self.now != 0
    }

    /// Forgets in which pass the coefficient was changed.
    fn forget(&mut self) -> bool
        ensures value { self.new.now ≡ self.old.now }
        ensures stamp { self.new.pass ≡ 0 }
        ensures kept { IsTrue result }
    {
        self.pass = 0;
        true
    }
}

/// Adds c beside the key.
fn add_at<K: Ord + Drop>(
    map: &mut BTreeMap<K, Slot>,
    pass: u64,
    p: Prime,
    key: K,
    c: Residue,
) -> Result<(), AllocError>
    requires residues { AreResiduesBy p (terms_by now_of map.old.entries) }
    requires factor { c < p }
    ensures entries { OnOk result (map.new.entries ≡ insert_entry K.cmp map.old.entries key
        (added pass p c (unwrap_or (get K.cmp map.old key) (fresh pass)))) }
    ensures err { OnErr result (map.new.entries ≡ map.old.entries) }
    ensures ordered { IsOrdered K.cmp map.old }
    ensures ordered_after { IsOrdered K.cmp map.new }
{
    let slot = map.entry(key)?.or_insert(Slot::fresh(pass));
    slot.add(pass, p, c);
    Ok(())
}

/// Adds each of the terms in this pass.
fn add_each<K: Ord + Drop>(
    map: &mut BTreeMap<K, Slot>,
    pass: u64,
    p: Prime,
    terms: Vec<(K, Residue)>,
) -> Result<(), AllocError>
    requires residues { AreResiduesBy p (terms_by now_of map.old.entries) }
    requires factors { All (λ e. e.1 < p) terms.items }
    ensures sum { OnOk result (SameSum (eq_by_cmp K.cmp) p (terms_by now_of map.new.entries)
        (listed terms.items ++ terms_by now_of map.old.entries)) }
    ensures before { terms_by (before_at pass) map.new.entries ≡ terms_by (before_at pass)
        map.old.entries }
    ensures residues { AreResiduesBy p (terms_by now_of map.new.entries) }
    ensures stamps { All (λ e. e.1.pass ≤ pass) map.old.entries
        → All (λ e. e.1.pass ≤ pass) map.new.entries }
{
    let mut left = terms;
    while let Some((key, c)) = left.pop() {
        add_at(map, pass, p, key, c)?;
    }
    Ok(())
}

/// Undoes the pass.
fn go_back<K: Ord + Drop>(map: &mut BTreeMap<K, Slot>, pass: u64)
    ensures terms { terms_by now_of map.new.entries ≡ terms_by (before_at pass) map.old.entries }
    ensures stamps { All (λ e. e.1.pass ≤ pass) map.old.entries
        → All (λ e. e.1.pass ≤ pass) map.new.entries }
{
    map.retain(|_, slot| slot.go_back(pass));
}

/// A number for the next pass, which no entry has. When the numbers are used up, the entries forget theirs.
fn next_pass<K: Ord + Drop>(map: &mut BTreeMap<K, Slot>, pass: u64) -> u64
    requires { All (λ e. e.1.pass ≤ pass) map.old.entries }
    ensures terms { terms_by now_of map.new.entries ≡ terms_by now_of map.old.entries }
    ensures stamps { All (λ e. e.1.pass < result) map.new.entries }
{
    if pass < u64::MAX {
        return pass + 1;
    }
    map.retain(|_, slot| slot.forget());
    1
}

/// Whether the last entry has the coefficient 0.
fn ends_in_zero<K: Ord>(map: &BTreeMap<K, Slot>) -> bool
    ensures yes { IsTrue result → EndsInZero map.now.entries }
    ensures no { result ≡ false → IsTopped map.now.entries }
    ensures ordered { IsOrdered K.cmp map.now }
{
    if map.len() == 0 {
        return false;
    }
    match map.last_key_value() {
        Some((_, slot)) => slot.now == 0,
        None => false,
    }
}

/// Drops the last entries with the coefficient 0.
fn drop_zeros<K: Ord + Drop>(map: &mut BTreeMap<K, Slot>)
    ensures terms { terms_by now_of map.new.entries ≡ terms_by now_of map.old.entries }
    ensures stamps { (pass : ℕ) → All (λ e. e.1.pass ≤ pass) map.old.entries
        → All (λ e. e.1.pass ≤ pass) map.new.entries }
    ensures topped { IsTopped map.new.entries }
    ensures ordered { IsOrdered K.cmp map.new }
{
    while ends_in_zero(map) {
        map.pop_last();
    }
}

/// Adds each of the terms, or none where memory runs out.
fn add_or_go_back<K: Ord + Drop>(
    map: &mut BTreeMap<K, Slot>,
    pass: u64,
    p: Prime,
    terms: Vec<(K, Residue)>,
) -> Result<(), AllocError>
    requires residues { AreResiduesBy p (terms_by now_of map.old.entries) }
    requires factors { All (λ e. e.1 < p) terms.items }
    requires stamps { All (λ e. e.1.pass < pass) map.old.entries }
    ensures sum { OnOk result (SameSum (eq_by_cmp K.cmp) p (terms_by now_of map.new.entries)
        (listed terms.items ++ terms_by now_of map.old.entries)) }
    ensures residues { AreResiduesBy p (terms_by now_of map.new.entries) }
    ensures stamps { All (λ e. e.1.pass ≤ pass) map.new.entries }
    ensures topped { IsTopped map.new.entries }
    ensures ordered { IsOrdered K.cmp map.new }
    ensures err { OnErr result (terms_by now_of map.new.entries ≡ terms_by now_of map.old.entries) }
{
    match add_each(map, pass, p, terms) {
        Ok(()) => {
            drop_zeros(map);
            Ok(())
        }
        Err(error) => {
            go_back(map, pass);
            drop_zeros(map);
            Err(error)
        }
    }
}

/// A sum of terms: contracts see the list of its terms, the greatest key first, each key once and with no coefficient 0.
///
/// The work for k terms that are added to n is k log n.
#[derive(Drop)]
pub struct Sum<K: Ord> {
    kept: BTreeMap<K, Slot>,
    /// The number of the last pass; no entry has a later one.
    pass: u64,
}

impl<K: Ord> Model for Sum<K> {
    ghost use Rattle.nc_algebra.specs.Sums.{Term};
    ghost use Rattle.nc_poly.specs.Keeping.{IsTopped, now_of, terms_by};
    ghost use Rattle.std.specs.Prelude.{All, List, ◌≤◌};

    ghost Value = { List (Term K) };

    ghost view = { λ s. terms_by now_of s.kept.entries };

    ghost invariant = { λ s. IsTopped s.kept.entries × All (λ e. e.1.pass ≤ s.pass) s.kept.entries };
}

impl<K: Ord> Sum<K> {
    /// The sum 0.
    pub fn new(alloc: Global) -> Sum<K>
        ensures { result ≡ [] }
    {
        Sum {
            kept: BTreeMap::new(alloc),
            pass: 0,
        }
    }

    /// The key and the coefficient of the greatest term. No memory is taken.
    pub fn greatest(&self) -> Option<(&K, &Residue)>
        ensures none { IsNone result ↔ (self.now ≡ []) }
        ensures some { IfSome result (λ t. (others : List (Term _))
            × (self.now ≡ record { coefficient = t.1.now; key = t.0.now } ∷ others)) }
    {
        match self.kept.last_key_value() {
            Some((key, slot)) => Some((key, &slot.now)),
            None => None,
        }
    }
}

impl<K: Ord + Drop> Sum<K> {
    /// Adds a term whose key is greater than those listed.
    pub fn push_greatest(&mut self, key: K, c: Residue) -> Result<(), AllocError>
        requires some { 0 < c }
        requires greatest { AllBelow K.cmp key self.old }
        ensures pushed { OnOk result (self.new ≡ record { coefficient = c; key = key } ∷ self.old) }
        ensures err { OnErr result (self.new ≡ self.old) }
    {
        let slot = Slot {
            now: c,
            before: c,
            pass: self.pass,
        };
        self.kept.insert(key, slot)?;
        Ok(())
    }

    /// Takes the greatest term out. No memory is taken.
    pub fn take_greatest(&mut self) -> Option<(K, Residue)>
        ensures none { IsNone result ↔ (self.old ≡ []) }
        ensures unchanged { IsNone result → self.new ≡ self.old }
        ensures some { IfSome result (λ t. self.old ≡ record {
          coefficient = t.1;
          key = t.0;
        } ∷ self.new) }
    {
        match self.kept.pop_last() {
            Some((key, slot)) => {
                drop_zeros(&mut self.kept);
                Some((key, slot.now))
            }
            None => None,
        }
    }

    /// Adds the terms, whose keys may stand in any order and several times. After `Err` the sum is what it was.
    pub fn add_all(&mut self, p: Prime, terms: Vec<(K, Residue)>) -> Result<(), AllocError>
        requires residues { AreResiduesBy p self.old }
        requires factors { All (λ e. e.1 < p) terms.items }
        ensures sum { OnOk result (SameSum (eq_by_cmp K.cmp) p self.new
            (listed terms.items ++ self.old)) }
        ensures residues { AreResiduesBy p self.new }
        ensures descending { Descends K.cmp self.new }
        ensures err { OnErr result (self.new ≡ self.old) }
    {
        let pass = next_pass(&mut self.kept, self.pass);
        self.pass = pass;
        add_or_go_back(&mut self.kept, pass, p, terms)
    }
}
