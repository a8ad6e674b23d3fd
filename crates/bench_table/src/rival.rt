//! The rival: plain words, on which the same atomic operations are done.
use compat_check::MacroMesh;
use mesh_names::name::ElemName;
use std::alloc::{AllocError, Global};
use std::sync::atomic::{AtomicU64, Ordering};
use table_words::name_word::spell_name;

/// The words of a table of one round, laid out as the real one's.
#[derive(Drop)]
pub struct PlainTable<'m> {
    mesh: &'m MacroMesh,
    words: Vec<AtomicU64>,
    none: AtomicU64,
    tops: usize,
    rows: usize,
    blocks: usize,
}

impl<'m> PlainTable<'m> {
    /// A fresh table with so many blocks.
    pub fn new(
        alloc: Global,
        mesh: &'m MacroMesh,
        pool: u32,
    ) -> Result<PlainTable<'m>, AllocError> {
        let elements = mesh.element_count() as usize;
        let tops: usize = 9;
        let rows = tops.wrapping_add(elements);
        let blocks = rows.wrapping_add(pool as usize);
        let count = blocks.wrapping_add((pool as usize).wrapping_mul(10));
        let mut words = Vec::with_capacity(alloc, count)?;
        for index in 0..count {
            let row = index.wrapping_sub(rows);
            let word = if row < pool as usize { row as u64 } else { 0 };
            words.push(AtomicU64::new(word))?;
        }
        let table = PlainTable {
            mesh,
            words,
            none: AtomicU64::new(0),
            tops,
            rows,
            blocks,
        };
        table.word(3).store(u64::from(pool), Ordering::SeqCst);
        Ok(table)
    }

    fn word(&self, index: usize) -> &AtomicU64 {
        match self.words.get(index) {
            Some(word) => word,
            None => &self.none,
        }
    }

    fn load(&self, index: usize) -> u64 {
        self.word(index).load(Ordering::SeqCst)
    }

    fn store(&self, index: usize, word: u64) {
        self.word(index).store(word, Ordering::SeqCst);
    }

    fn block(&self, block: u64) -> usize {
        self.blocks.wrapping_add((block as usize).wrapping_mul(10))
    }

    // By which block, and as which member, the name of this code is bisected.
    fn visit(&self, link: usize, code: u64) -> Option<(u64, bool)> {
        let block = (self.load(link) / 2 % 2_097_152).checked_sub(1)?;
        let at = self.block(block);
        let second = self.load(at.wrapping_add(3)) == code;
        if self.load(at) > 0 {
            Some((block, second))
        } else {
            None
        }
    }

    // Where the LINK word of a name stands.
    fn stand(&self, name: ElemName) -> Option<usize> {
        let mut link = self.tops.wrapping_add(name.root() as usize);
        let _seats = self.load(0);
        let depth = u32::from(name.depth());
        for letters in 0..depth {
            let bits = name.bits().wrapping_shr(depth.wrapping_sub(letters));
            let code = u64::from(name.root())
                .wrapping_mul(536_870_912)
                .wrapping_add(u64::from(letters).wrapping_mul(16_777_216))
                .wrapping_add(u64::from(bits))
                .wrapping_add(1);
            let (block, second) = self.visit(link, code)?;
            let side = name
                .bits()
                .wrapping_shr(depth.wrapping_sub(letters).wrapping_sub(1))
                & 1;
            let child = (second as usize)
                .wrapping_mul(2)
                .wrapping_add(side as usize);
            link = self.block(block).wrapping_add(6).wrapping_add(child);
        }
        Some(link)
    }

    /// Bisects the patch of a name whose parent is bisected, and its partner's: whether it did.
    pub fn bisect(&self, name: ElemName) -> Option<bool> {
        let at = self.stand(name)?;
        if self.visit(at, spell_name(Some(name))).is_some() {
            return Some(false);
        }
        if name.root() >= self.mesh.element_count() || self.mesh.level(name) > 24 {
            return None;
        }
        let Some(other) = self.mesh.partner(name) else {
            return self.claim(at, None, name, None);
        };
        let beside = self.stand(other)?;
        if name < other {
            self.claim(at, Some(beside), name, Some(other))
        } else {
            self.claim(beside, Some(at), other, Some(name))
        }
    }

    // From the claim of a patch to its publication.
    fn claim(
        &self,
        at: usize,
        beside: Option<usize>,
        name: ElemName,
        other: Option<ElemName>,
    ) -> Option<bool> {
        let old = self.word(at).fetch_or(1, Ordering::SeqCst);
        if old % 2 == 1 {
            return None;
        }
        let number = self.word(2).fetch_add(1, Ordering::SeqCst);
        if number >= self.load(3) {
            return None;
        }
        let block = self.load(self.rows.wrapping_add(number as usize));
        let words = self.block(block);
        self.store(words.wrapping_add(1), 0);
        self.store(words.wrapping_add(2), spell_name(Some(name)));
        self.store(words.wrapping_add(3), spell_name(other));
        for child in 6..10 {
            self.store(words.wrapping_add(child), 0);
        }
        self.store(words.wrapping_add(4), self.load(at) & !1);
        match beside {
            None => self.store(words.wrapping_add(5), 0),
            Some(beside) => self.store(words.wrapping_add(5), self.load(beside) & !1),
        }
        let node = block.wrapping_add(1).wrapping_mul(2);
        self.store(at, node | 1);
        if let Some(beside) = beside {
            self.store(beside, node);
        }
        self.word(words).swap(1, Ordering::SeqCst);
        Some(true)
    }

    /// A sum over all words but the claims.
    pub fn checksum(&self) -> u64 {
        let mut sum: u64 = 0;
        for word in &self.words {
            sum = sum
                .wrapping_mul(31)
                .wrapping_add(word.load(Ordering::SeqCst));
        }
        sum
    }
}
