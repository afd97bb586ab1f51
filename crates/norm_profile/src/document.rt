//! What a TOML document gives: [`Document`]. The readers of this crate return it, except `load_profile`.

use norm_base::Profile;

/// What a document gives. The instance is apart from the profile, so that one that was left out can be told from the default.
#[derive(Clone, Copy, Debug)]
pub struct Document {
    /// The profile. Keys that the document leaves out have their defaults.
    pub profile: Profile,
    /// The first instance, 0 to 65,535. `None` if the document leaves it out; the profile then has the default.
    pub instance: Option<u32>,
}
