//! The instances that each instance contains, by place.

ghost use Rattle.std.specs.Prelude.{◌≡◌, ℕ, ◌≤◌, List, length, map, IfOk};
ghost use Rattle.lft_resolve.specs.inner.Expansion.{Contents.AreWalked, Children.{AreChildren, child_of}};

use crate::expansion::walk::Instance;
use lft_lists::item_at;
use lft_tag::NoMemory;
use std::alloc::Global;
use std::marker::Model;

/// The numbers of the instances that each instance contains, by place. A contract sees a row of
/// numbers for each instance.
#[derive(Drop)]
pub struct Children {
    rows: Vec<Vec<u32>>,
}

impl Model for Children {
    ghost Value = { List (List ℕ) };

    ghost view = { λ c. map (λ row. row.items) c.rows.items };
}

impl Children {
    /// The children of instances that a walk made.
    pub fn of(alloc: Global, instances: &[Instance]) -> Result<Children, NoMemory>
        requires walked { AreWalked instances.now }
        requires few { length instances.now ≤ 10000 }
        ensures { IfOk result (λ c. AreChildren instances.now c) }
    {
        let mut rows = Vec::new(alloc);
        rows.push(Vec::new(alloc))?;
        'instances: for number in 1..instances.len() {
            rows.push(Vec::new(alloc))?;
            let parent = item_at(instances, number).parent as usize;
            rows[parent].push(number as u32)?;
        }
        Ok(Children { rows })
    }

    /// The number of the instance at this place of an instance.
    pub fn child(&self, instance: u32, place: usize) -> Option<u32>
        ensures { result ≡ child_of self.now instance place }
    {
        self.rows
            .get(instance as usize)
            .and_then(|row| row.get(place))
            .copied()
    }
}
