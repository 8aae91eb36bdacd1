//! What a group requires of its members' clients (RFC 9420, 11.1).

ghost use Rattle.std.specs.Prelude.{◌≡◌, None, Some, MatchOption};
ghost use Rattle.mls_nodes.specs.Requirements.{extension_of, FindsRequirements};

use crate::context::GroupContext;
use crate::extension::ExtensionsLeft;
use crate::lists::{Codes, Extensions};
use mls_wire::{CodecFault, Decode, Draft, Encode, Reader, TryClone, add_sizes, read_all_of};
use std::alloc::Global;

/// The extension type of required capabilities.
const REQUIRED_CAPABILITIES: u16 = 3;

/// What each member of a group has to support.
#[derive(Debug)]
pub struct RequiredCapabilities {
    /// Extension types.
    pub extensions: Codes,
    /// Proposal types.
    pub proposals: Codes,
    /// Credential types.
    pub credentials: Codes,
}

// Written out, so that a drop is one call in the proofs of its owners.
impl Drop for RequiredCapabilities {
    fn drop(self) {
        let RequiredCapabilities {
            extensions: _,
            proposals: _,
            credentials: _,
        } = self;
    }
}

impl Decode for RequiredCapabilities {
    ghost use Rattle.mls_nodes.specs.Layout.{required_capabilities};
    ghost use Rattle.mls_nodes.specs.Parsing.{required_capabilities_at};
    ghost use Rattle.mls_nodes.specs.NodesExact.{required_capabilities_exact, required_capabilities_long};

    ghost encoding = { required_capabilities };

    ghost reading = { required_capabilities_at };

    #[tactic(auto, unfolding(crate::specs::Parsing::required_capabilities_at))]
    fn read(alloc: Global, reader: &mut Reader<'_>) -> Result<RequiredCapabilities, CodecFault> {
        let mut ahead = reader.fork();
        let extensions = Codes::read(alloc, &mut ahead)?;
        let proposals = Codes::read(alloc, &mut ahead)?;
        let credentials = Codes::read(alloc, &mut ahead)?;
        *reader = ahead;
        Ok(RequiredCapabilities {
            extensions,
            proposals,
            credentials,
        })
    }

    ghost exact = { required_capabilities_exact };

    ghost long = { required_capabilities_long };
}

impl Encode for RequiredCapabilities {
    #[tactic(auto, using(crate::specs::TagSizes::tag_sizes), unfolding(crate::specs::Layout::required_capabilities))]
    fn size(&self) -> Option<usize> {
        add_sizes(
            self.extensions.size(),
            add_sizes(self.proposals.size(), self.credentials.size()),
        )
    }

    #[tactic(auto, using(mls_wire::specs::WriteSequences::written), unfolding(crate::specs::Layout::required_capabilities))]
    fn put(&self, alloc: Global, draft: &mut Draft) -> Result<(), CodecFault> {
        self.extensions.put(alloc, draft)?;
        self.proposals.put(alloc, draft)?;
        self.credentials.put(alloc, draft)
    }
}

impl TryClone for RequiredCapabilities {
    fn try_clone(&self, alloc: Global) -> Result<RequiredCapabilities, CodecFault> {
        Ok(RequiredCapabilities {
            extensions: self.extensions.try_clone(alloc)?,
            proposals: self.proposals.try_clone(alloc)?,
            credentials: self.credentials.try_clone(alloc)?,
        })
    }
}

/// Returns the data of the first extension of a type.
pub fn find_extension(extensions: &Extensions, kind: u16) -> Option<&[u8]>
    ensures { MatchOption result
        (extension_of kind extensions.now ≡ None)
        (λ body. extension_of kind extensions.now ≡ Some body.now) }
{
    let mut left = ExtensionsLeft::of(extensions);
    while let Some(extension) = left.next() {
        if extension.kind == kind {
            return Some(extension.body);
        }
    }
    None
}

/// Returns what a group with these extensions requires: the data of the first one of type 3, or empty lists if there is
/// none, which does not allocate (RFC 9420, 11.1).
///
/// # Errors
///
/// A wire fault if and only if that data is no encoding of required capabilities, or `OutOfMemory`.
pub fn requirements_of(
    alloc: Global,
    extensions: &Extensions,
) -> Result<RequiredCapabilities, CodecFault>
    ensures { FindsRequirements (extension_of 3 extensions.now) result }
{
    match find_extension(extensions, REQUIRED_CAPABILITIES) {
        Some(body) => read_all_of(alloc, body),
        None => Ok(RequiredCapabilities {
            extensions: Codes::empty(),
            proposals: Codes::empty(),
            credentials: Codes::empty(),
        }),
    }
}

/// Returns what the group requires by the extensions of its context, as [`requirements_of`].
pub fn requirements(
    alloc: Global,
    context: &GroupContext,
) -> Result<RequiredCapabilities, CodecFault>
    ensures { FindsRequirements (extension_of 3 context.now.extensions) result }
{
    requirements_of(alloc, &context.extensions)
}
