//! Code maps by their ids.

ghost use Rattle.std.specs.Prelude.{◌≡◌, ℕ, IsOk, IsSome, None, OnErr, OnOk};
ghost use Rattle.std.specs.Option.{option_map};
ghost use Rattle.starlark_place.specs.Maps.{map_of, with_entry, with_map, with_maps};

use crate::codemap::{CodeMap, CodeMapId};
use std::alloc::{AllocError, Global};
use std::collections::BTreeMap;

/// Code maps by their ids. The first map of an id stays.
#[derive(Debug, Drop)]
pub struct CodeMaps {
    alloc: Global,
    maps: BTreeMap<u64, CodeMap>,
}

impl CodeMaps {
    /// No maps.
    pub fn new(alloc: Global) -> CodeMaps
        ensures { (id : ℕ) → map_of result id ≡ None }
    {
        CodeMaps {
            alloc,
            maps: BTreeMap::new(alloc),
        }
    }

    /// The map of an id, if there is one.
    pub fn get(&self, id: CodeMapId) -> Option<&CodeMap>
        ensures { option_map (λ m. m.now) result ≡ map_of self.now id.0 }
    {
        self.maps.get(&id.0)
    }

    /// Adds a map, unless there is one of its id. Where memory or one more owner of the map cannot be had it is refused,
    /// and nothing changes. That is never where there is one of its id.
    pub fn add(&mut self, codemap: &CodeMap) -> Result<(), AllocError>
        ensures added { OnOk result ((id : ℕ) → map_of self.new id ≡ with_map (map_of self.old) codemap.now id) }
        ensures stays { OnErr result ((id : ℕ) → map_of self.new id ≡ map_of self.old id) }
        ensures there { IsSome (map_of self.old codemap.now.id) → IsOk result }
    {
        self.put(codemap.id().0, codemap)
    }

    /// Adds those of other maps of whose ids there is none. Where memory or one more owner of a map cannot be had it is
    /// refused, and nothing changes.
    pub fn add_all(&mut self, codemaps: &CodeMaps) -> Result<(), AllocError>
        ensures added { OnOk result ((id : ℕ) → map_of self.new id ≡ with_maps (map_of self.old) (map_of codemaps.now) id) }
        ensures stays { OnErr result ((id : ℕ) → map_of self.new id ≡ map_of self.old id) }
    {
        let mut both = CodeMaps::new(self.alloc);
        both.put_all(self)?;
        both.put_all(codemaps)?;
        *self = both;
        Ok(())
    }

    // adds a map under an id, unless there is one
    fn put(&mut self, id: u64, codemap: &CodeMap) -> Result<(), AllocError>
        ensures added { OnOk result ((q : ℕ) → map_of self.new q ≡ with_entry (map_of self.old) id codemap.now q) }
        ensures stays { OnErr result ((q : ℕ) → map_of self.new q ≡ map_of self.old q) }
        ensures there { IsSome (map_of self.old id) → IsOk result }
    {
        if !self.maps.contains_key(&id) {
            self.maps.insert(id, codemap.dupe()?)?;
        }
        Ok(())
    }

    // adds those of other maps of whose ids there is none, some of them where it is refused
    fn put_all(&mut self, codemaps: &CodeMaps) -> Result<(), AllocError>
        ensures { OnOk result ((q : ℕ) → map_of self.new q ≡ with_maps (map_of self.old) (map_of codemaps.now) q) }
    {
        for (id, map) in &codemaps.maps {
            self.put(*id, map)?;
        }
        Ok(())
    }
}
