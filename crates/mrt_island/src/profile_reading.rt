//! A whole profile file.

ghost use Rattle.std.specs.Prelude.{◌≡◌, ◌≤◌, ℕ, Ok, Err, IfOk, List, length};
ghost use Rattle.std.specs.Result.{result_map_both};
ghost use Rattle.text_parts.specs.TextLines.{text_lines};
ghost use Rattle.mrt_island.specs.declared.profile_error.ProfileKind.{ProfileKind};
ghost use Rattle.mrt_island.specs.declared.setting.Setting.{Setting};
ghost use Rattle.mrt_island.specs.steps.ProfileTaking.{error_of};
ghost use Rattle.mrt_island.specs.ProfileFaults.{AreSettings, IsFirstProfileFault, OrNoMemory};

use crate::profile::Profile;
use crate::profile_error::{ProfileError, ProfileKind};
use crate::profile_line::read_setting;
use lsdb::FileKey;
use mrt_graph::NoMemory;
use std::alloc::Global;
use text_parts::{LineError, TakesLines, text_of};

/// The profile of a file. There are at most 33,554,432 bytes; no bytes are a profile without settings.
///
/// A line is passed over where its first byte is `#`, whatever it holds, and where it is of spaces and tabs alone. Any other is one of
/// these, its words split by spaces or tabs:
///
/// - `priority ROUTER N`: the router's GADAG root selection priority is N, from 0 to 255;
/// - `no-mrt ROUTER`: the router does not support the Default MRT Profile;
/// - `ineligible ROUTER DATA`: the router's links with this link data are kept out of each island.
///
/// It takes time in proportion to the bytes, and a look-up for each line.
///
/// # Errors
///
/// [`ProfileError::Fault`] names the first line with a fault, from 1, and the first of its faults in the order of [`ProfileKind`].
/// [`ProfileError::NoMemory`] comes where there was none for a setting.
pub fn read_profile(alloc: Global, bytes: &[u8]) -> Result<Profile, ProfileError>
    requires { length bytes.now ≤ 33554432 }
    // What is read is what the lines say, none of which has a fault.
    ensures found { IfOk result (AreSettings (text_lines bytes.now)) }
    // Where no line has a fault, it is read.
    ensures only { (settings : List Setting) → AreSettings (text_lines bytes.now) settings → OrNoMemory result (Ok settings) }
    // A fault is the first one, and the first one is told.
    ensures fault { (line : ℕ) (kind : ProfileKind) → result ≡ Err (ProfileError.Fault line kind) → IsFirstProfileFault (text_lines bytes.now) line kind }
    ensures faulty { (line : ℕ) (kind : ProfileKind) → IsFirstProfileFault (text_lines bytes.now) line kind → OrNoMemory result (Err (ProfileError.Fault line kind)) }
{
    profile_or_fault(text_of(bytes, Profile::keyed(alloc, FileKey::of(bytes))))
}

/// What was read, with the error of profiles.
fn profile_or_fault(read: Result<Profile, LineError<ProfileKind>>) -> Result<Profile, ProfileError>
    ensures { result ≡ result_map_both (λ profile. profile) error_of read }
{
    match read {
        Ok(profile) => Ok(profile),
        Err(LineError::Fault { line, fault }) => Err(ProfileError::Fault { line, kind: fault }),
        Err(LineError::NoMemory) => Err(ProfileError::NoMemory),
    }
}

impl TakesLines for Profile {
    ghost use Rattle.mrt_island.specs.ProfileTaking.{profile_rule};

    type Text = Profile;

    type Fault = ProfileKind;

    ghost rule = { profile_rule };

    fn take(&mut self, line: &[u8]) -> Result<Result<(), ProfileKind>, NoMemory> {
        match read_setting(line) {
            Err(kind) => Ok(Err(kind)),
            Ok(setting) => {
                let is_new = self.add(setting)?;
                Ok(if is_new {
                    Ok(())
                } else {
                    Err(ProfileKind::Repeated)
                })
            }
        }
    }

    fn end(self) -> Result<Profile, ProfileKind> {
        Ok(self)
    }
}
