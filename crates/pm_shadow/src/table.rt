//! The pages of a store from page 2 on, and what each is used for.
ghost use Rattle.std.specs.Prelude.{◌≡◌, ◌≤◌, ◌<◌, ◌+◌, ◌-◌, ◌^◌, [], All, length, map, replicate, reverse, vec_capacity, IfOk, OnErr};
ghost use Rattle.pm_shadow.specs.Uses.{use_of, free_from, renewed, abandoned, marked};

use crate::PageUse;
use pm_types::NoMemory;
use std::alloc::Global;

/// The first page that a copy may use: pages 0 and 1 are those of the headers.
pub(crate) const FIRST_PAGE: u64 = 2;

/// The most pages that are told apart: the last byte of each has a place below 2^63.
const MOST_PAGES: usize = (1 << 49) - 3;

/// What each page from page 2 on is used for. Pages behind the end of the list are free.
#[derive(Drop)]
pub(crate) struct Table {
    uses: Vec<PageUse>,
    /// The free pages among them, the highest first. It has room for all of them.
    free: Vec<u64>,
    ghost listed: { free.items ≡ reverse (free_from 2 uses.items) },
    ghost roomy: { length uses.items ≤ vec_capacity free },
    ghost few: { length uses.items ≤ 2 ^ 49 - 3 },
}

impl Table {
    ghost use Rattle.std.specs.Prelude.{◌≡◌, ◌<◌, ◌≤◌, ◌+◌, ◌-◌, ◌^◌, [], All, IfOk, OnErr, true};
    ghost use Rattle.pm_shadow.specs.Uses.{IsLowestFree, is_current, with_use, renewed_uses, abandoned_uses, UsesOnlyListed};
    ghost use Rattle.pm_shadow.specs.Tables.{uses_in};

    /// No page is used.
    pub(crate) fn new(alloc: Global) -> Table
        ensures { uses_in result ≡ use_of [] }
    {
        Table {
            uses: Vec::new(alloc),
            free: Vec::new(alloc),
        }
    }

    /// Claims the lowest page that is free.
    pub(crate) fn claim(&mut self) -> Result<u64, NoMemory>
        ensures lowest { IfOk result (λ page. IsLowestFree (uses_in self.old) page) }
        ensures claimed { IfOk result (λ page. uses_in self.new ≡ with_use page PageUse.Claimed (uses_in self.old)) }
        ensures err { OnErr result (uses_in self.new ≡ uses_in self.old) }
    {
        match self.free.pop() {
            Some(page) => {
                self.uses[(page - FIRST_PAGE) as usize] = PageUse::Claimed;
                Ok(page)
            }
            None => self.claim_behind(),
        }
    }

    /// Claims the page behind the list, where no page in it is free.
    fn claim_behind(&mut self) -> Result<u64, NoMemory>
        requires { free_from 2 self.old.uses.items ≡ [] }
        ensures lowest { IfOk result (λ page. IsLowestFree (uses_in self.old) page) }
        ensures claimed { IfOk result (λ page. uses_in self.new ≡ with_use page PageUse.Claimed (uses_in self.old)) }
        ensures err { OnErr result (uses_in self.new ≡ uses_in self.old) }
    {
        let len = self.uses.len();
        if len >= MOST_PAGES {
            return Err(NoMemory::uncountable(len as u64));
        }
        self.free.reserve(len + 1)?;
        self.uses.reserve(1)?;
        self.uses.push_reserved(PageUse::Claimed);
        Ok(FIRST_PAGE + len as u64)
    }

    /// A table in which the current copy's pages are these, and all others are free.
    pub(crate) fn listing(alloc: Global, pages: &[u64]) -> Result<Table, NoMemory>
        requires { All (λ page. 2 ≤ page) pages.now }
        ensures { IfOk result (λ table. UsesOnlyListed pages.now (uses_in table)) }
    {
        let len = needed(pages);
        if len > MOST_PAGES {
            return Err(NoMemory::uncountable(len as u64));
        }
        let mut uses = free_uses(alloc, len)?;
        mark_all(&mut uses, pages);
        let mut free = Vec::with_capacity(alloc, len)?;
        list_free_again(&uses, &mut free);
        Ok(Table { uses, free })
    }

    /// Keeps a page of the current copy for the next one.
    pub(crate) fn keep(&mut self, page: u64)
        requires from_2 { 2 ≤ page }
        requires current { is_current (uses_in self.old page) ≡ true }
        ensures { uses_in self.new ≡ with_use page PageUse.Kept (uses_in self.old) }
    {
        self.uses[(page - FIRST_PAGE) as usize] = PageUse::Kept;
    }

    /// Nothing is claimed or kept for the next copy any more: the claimed pages are free.
    pub(crate) fn abandon(&mut self)
        ensures { uses_in self.new ≡ abandoned_uses (uses_in self.old) }
    {
        abandon_all(&mut self.uses);
        list_free_again(&self.uses, &mut self.free);
    }

    /// The claimed and the kept pages are those of the current copy now, and all others are free.
    pub(crate) fn renew(&mut self)
        ensures { uses_in self.new ≡ renewed_uses (uses_in self.old) }
    {
        renew_all(&mut self.uses);
        list_free_again(&self.uses, &mut self.free);
    }
}

/// Appends the free pages, the lowest first. There is room for them.
fn list_free(uses: &[PageUse], free: &mut Vec<u64>)
    requires empty { free.old.items ≡ [] }
    requires room { length uses.now ≤ vec_capacity free.old }
    requires few { length uses.now ≤ 2 ^ 49 - 3 }
    ensures pages { free.new.items ≡ free_from 2 uses.now }
    ensures capacity { vec_capacity free.new ≡ vec_capacity free.old }
{
    for index in 0..uses.len() {
        if uses[index].is_free() {
            free.push_reserved(FIRST_PAGE + index as u64);
        }
    }
}

/// Lists the free pages, the highest first. There is room for them.
fn list_free_again(uses: &[PageUse], free: &mut Vec<u64>)
    requires room { length uses.now ≤ vec_capacity free.old }
    requires few { length uses.now ≤ 2 ^ 49 - 3 }
    ensures pages { free.new.items ≡ reverse (free_from 2 uses.now) }
    ensures capacity { vec_capacity free.new ≡ vec_capacity free.old }
{
    free.clear();
    list_free(uses, free);
    free.reverse();
}

/// The claimed and the kept pages are those of the current copy now.
fn renew_all(uses: &mut [PageUse])
    ensures { uses.new ≡ map renewed uses.old }
{
    for page_use in uses.iter_mut() {
        *page_use = page_use.renewed();
    }
}

/// No page is claimed or kept any more.
fn abandon_all(uses: &mut [PageUse])
    ensures { uses.new ≡ map abandoned uses.old }
{
    for page_use in uses.iter_mut() {
        *page_use = page_use.abandoned();
    }
}

/// A list of so many pages, of which none is used.
fn free_uses(alloc: Global, len: usize) -> Result<Vec<PageUse>, NoMemory>
    ensures { IfOk result (λ uses. uses.items ≡ replicate len PageUse.Free) }
{
    let mut uses = Vec::with_capacity(alloc, len)?;
    uses.resize(len, PageUse::Free)?;
    Ok(uses)
}

/// How long a list of uses has to be so that it has all these pages.
fn needed(pages: &[u64]) -> usize
    requires { All (λ page. 2 ≤ page) pages.now }
    ensures { All (λ page. page < result + 2) pages.now }
{
    let mut needed = 0;
    for page in pages {
        needed = needed.max((*page - 1) as usize);
    }
    needed
}

/// These pages are those of the current copy.
fn mark_all(uses: &mut Vec<PageUse>, pages: &[u64])
    requires from_2 { All (λ page. 2 ≤ page) pages.now }
    requires within { All (λ page. page < length uses.old.items + 2) pages.now }
    ensures marked { uses.new.items ≡ marked pages.now uses.old.items }
    ensures len { length uses.new.items ≡ length uses.old.items }
{
    for page in pages {
        uses[(*page - FIRST_PAGE) as usize] = PageUse::Current;
    }
}
