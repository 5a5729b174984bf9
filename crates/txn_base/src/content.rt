//! What a ledger holds, for clauses alone. The carrier takes no memory, and its methods do nothing at run time.
ghost use Rattle.std.specs.Prelude.{◌≡◌, []};
ghost use Rattle.std.specs.Borrow.{ftrue};
ghost use Rattle.txn_base.specs.Bytes.{contents_of};
ghost use Rattle.txn_base.specs.Content.{LedgerContent, settled, looked_at, landed, begun, kept, dropped};

use crate::bytes::Bytes;
use crate::file_id::FileId;
use std::marker::{Model, PhantomData};
use std::mem::size_of;

/// How a ledger's content is read off a value.
pub trait ReadsContent<X> {
    ghost use Rattle.txn_base.specs.Content.{LedgerContent};

    ghost content: { X → LedgerContent };
}

/// Carries the content of a ledger. It has no bytes and owns nothing, so only clauses tie the content to anything: each
/// clause that names it stands beside one that ties it to the files of a disk, in each image that a crash may leave.
pub struct ContentCarrier {
    marker: PhantomData<()>,
    pub ghost content: { LedgerContent },
}

const _: () = prove!(size_of::<ContentCarrier>() == 0);

impl Model for ContentCarrier {
    ghost also_owns = { λ _. ftrue };
}

impl ContentCarrier {
    /// The content that `M` reads off `x`.
    pub fn of<X, M: ReadsContent<X>>(x: &X) -> ContentCarrier
        ensures { result.content ≡ M.content x.now }
    {
        let _ = x;
        ContentCarrier {
            marker: PhantomData,
        }
    }

    /// No batches, and nothing in flight.
    pub fn empty(key: FileId) -> ContentCarrier
        ensures { result.content ≡ record { key = key; batches = []; standing = settled } }
    {
        ContentCarrier::of::<FileId, Nothing>(&key)
    }

    /// The batch stands behind the others.
    pub fn push(&mut self, batch: &[Bytes])
        ensures { self.new.content ≡ landed self.old.content (contents_of batch.now) }
    {
        *self = ContentCarrier::of::<(&ContentCarrier, &[Bytes]), Landed>(&(self, batch));
    }

    /// The batch stands behind the others or doesn't.
    pub fn begin(&mut self, batch: &[Bytes])
        ensures { self.new.content ≡ begun self.old.content (contents_of batch.now) }
    {
        *self = ContentCarrier::of::<(&ContentCarrier, &[Bytes]), Begun>(&(self, batch));
    }

    /// The batch in flight stands behind the others.
    pub fn settle_kept(&mut self)
        ensures { self.new.content ≡ kept self.old.content }
    {
        *self = ContentCarrier::of::<ContentCarrier, Kept>(self);
    }

    /// The batch in flight was dropped.
    pub fn settle_dropped(&mut self)
        ensures { self.new.content ≡ dropped self.old.content }
    {
        *self = ContentCarrier::of::<ContentCarrier, Dropped>(self);
    }

    /// The same batches, in a ledger to which nothing may be appended.
    pub fn look_at(&mut self)
        ensures { self.new.content ≡ record { key = self.old.content.key; batches = self.old.content.batches; standing = looked_at } }
    {
        *self = ContentCarrier::of::<ContentCarrier, Looked>(self);
    }
}

struct Nothing;

impl ReadsContent<FileId> for Nothing {
    ghost use Rattle.std.specs.Prelude.{[]};
    ghost use Rattle.txn_base.specs.Content.{settled};

    ghost content = { λ key. record { key = key; batches = []; standing = settled } };
}

struct Landed;

impl<'a, 'b> ReadsContent<(&'a ContentCarrier, &'b [Bytes])> for Landed {
    ghost use Rattle.txn_base.specs.Bytes.{contents_of};
    ghost use Rattle.txn_base.specs.Content.{landed};

    ghost content = { λ x. landed x.0.now.content (contents_of x.1.now) };
}

struct Begun;

impl<'a, 'b> ReadsContent<(&'a ContentCarrier, &'b [Bytes])> for Begun {
    ghost use Rattle.txn_base.specs.Bytes.{contents_of};
    ghost use Rattle.txn_base.specs.Content.{begun};

    ghost content = { λ x. begun x.0.now.content (contents_of x.1.now) };
}

struct Kept;

impl ReadsContent<ContentCarrier> for Kept {
    ghost use Rattle.txn_base.specs.Content.{kept};

    ghost content = { λ c. kept c.content };
}

struct Dropped;

impl ReadsContent<ContentCarrier> for Dropped {
    ghost use Rattle.txn_base.specs.Content.{dropped};

    ghost content = { λ c. dropped c.content };
}

struct Looked;

impl ReadsContent<ContentCarrier> for Looked {
    ghost use Rattle.txn_base.specs.Content.{looked_at};

    ghost content = { λ c. record { key = c.content.key; batches = c.content.batches; standing = looked_at } };
}

impl Drop for ContentCarrier {
    fn drop(self) {
        let Self { marker: _ } = self;
    }
}

unsafe impl Send for ContentCarrier {}

unsafe impl Sync for ContentCarrier {}
