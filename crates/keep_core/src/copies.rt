ghost use Rattle.std.specs.Prelude.{◌≡◌, IfOk};

use crate::member::Member;
use crate::page::{Page, PageHead, PageOutcomes, PagePut, SitePage};
use crate::site::Site;
use snap_tree::{Duplicate, OutOfMemory};
use std::alloc::Global;

impl Duplicate for Member {
    fn copy(&self, alloc: Global) -> Result<Self, OutOfMemory> {
        Ok(Member {
            user: self.user.copy(alloc)?,
            role: self.role,
        })
    }
}

impl Duplicate for Site {
    fn copy(&self, alloc: Global) -> Result<Self, OutOfMemory> {
        let name = self.name.copy(alloc)?;
        let members = self.members.copy(alloc)?;
        let languages = self.languages.copy(alloc)?;
        Ok(Site {
            name,
            counter: self.counter,
            members,
            languages,
        })
    }
}

impl Duplicate for PageHead {
    fn copy(&self, alloc: Global) -> Result<Self, OutOfMemory> {
        let page = self.page.copy(alloc)?;
        let hand = self.hand.copy(alloc)?;
        Ok(PageHead {
            page,
            rev: self.rev,
            hand,
        })
    }
}

impl Duplicate for Page {
    fn copy(&self, alloc: Global) -> Result<Self, OutOfMemory> {
        let head = self.head.copy(alloc)?;
        let tree = self.tree.copy()?;
        Ok(Page { head, tree })
    }
}

impl Duplicate for PagePut {
    fn copy(&self, alloc: Global) -> Result<Self, OutOfMemory> {
        let page = self.page.copy(alloc)?;
        let outcomes = self.outcomes.copy(alloc)?;
        Ok(PagePut { page, outcomes })
    }
}

impl Duplicate for PageOutcomes {
    fn copy(&self, alloc: Global) -> Result<Self, OutOfMemory> {
        let page = self.page.copy(alloc)?;
        let outcomes = self.outcomes.copy(alloc)?;
        Ok(PageOutcomes { page, outcomes })
    }
}

impl Duplicate for SitePage {
    fn copy(&self, alloc: Global) -> Result<Self, OutOfMemory> {
        let head = self.head.copy(alloc)?;
        let address = self.address.copy(alloc)?;
        let outcomes = self.outcomes.copy(alloc)?;
        Ok(SitePage {
            head,
            address,
            outcomes,
        })
    }
}
