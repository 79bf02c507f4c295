//! More than a refusal's number says of it, by the mirrors and the folder as they are.

use crate::folder::Folder;
use gm_commands::Command;
use gm_metadata::Label;
use gm_refusals::{Refusal, providers_of};
use gm_sentences::About;
use gm_state::{Component, ComponentState, State, bytes_of, component_state};
use std::alloc::AllocError;

/// The mirrors and the folder, by which a refusal is explained.
#[derive(Clone, Copy)]
pub(crate) struct Known<'a> {
    pub(crate) folder: Folder<'a>,
    pub(crate) state: &'a State,
}

impl Known<'_> {
    // The first component of a mirror whose image isn't there in its size.
    fn absent_component(self, mirror: Label) -> Option<Component> {
        for component in self.state.components() {
            if component.mirror != mirror {
                continue;
            }
            if self.folder.sectors(component.provider) != Some(u64::from(component.sectors)) {
                return Some(*component);
            }
        }
        None
    }

    fn absent(self, about: &About) -> Result<Option<String>, AllocError> {
        let alloc = self.folder.alloc();
        let Some(component) = about
            .mirror
            .and_then(|mirror| self.absent_component(mirror))
        else {
            return Ok(None);
        };
        let provider = component.provider;
        let mirror = component.mirror;
        let sectors = component.sectors;
        let text = format!(in alloc;
            "{provider}, a component of {mirror}, isn't on the shelf with its {sectors} sectors"
        )?;
        Ok(Some(text))
    }

    // What has the name of the first of these images that isn't there, if anything has it.
    fn other_entry(self, named: &[Label]) -> Result<Option<String>, AllocError> {
        let alloc = self.folder.alloc();
        let Some(image) = self.folder.first_absent(named) else {
            return Ok(None);
        };
        let Some(reason) = self.folder.no_image(image) else {
            return Ok(None);
        };
        let text = format!(in alloc; "{image} in the folder is no image: {reason}")?;
        Ok(Some(text))
    }

    // That an image carries metadata of a mirror which is registered, so that nothing adopts it.
    fn of_registered(self, image: Label) -> Result<Option<String>, AllocError> {
        let alloc = self.folder.alloc();
        let Some(metadata) = self.folder.metadata(image) else {
            return Ok(None);
        };
        match self.state.mirror(metadata.name) {
            Some(mirror) if mirror.mid == metadata.mid => {
                let name = mirror.name;
                let text = format!(in alloc;
                    "{image} carries metadata of {name}: see dump; if nobody needs it, clear it"
                )?;
                Ok(Some(text))
            }
            _ => Ok(None),
        }
    }

    fn too_small(self, about: &About, image: Label) -> Result<Option<String>, AllocError> {
        let alloc = self.folder.alloc();
        let mirror = about.mirror.and_then(|mirror| self.state.mirror(mirror));
        let (Some(mirror), Some(sectors)) = (mirror, self.folder.sectors(image)) else {
            return Ok(None);
        };
        let name = mirror.name;
        let has = sectors.saturating_mul(512);
        let needs = bytes_of(mirror.data_sectors).saturating_add(512);
        let text = format!(in alloc;
            "{image} has {has} bytes; the data of {name} and one sector more need {needs}"
        )?;
        Ok(Some(text))
    }

    // The first component of a mirror that isn't filled, and the way on.
    fn unfilled(self, mirror: Label) -> Result<Option<String>, AllocError> {
        let alloc = self.folder.alloc();
        for component in self.state.components() {
            if component.mirror != mirror {
                continue;
            }
            let provider = component.provider;
            match component_state(self.state, provider) {
                Some(ComponentState::Synchronizing) => {
                    return Ok(Some(format!(in alloc;
                        "{provider} is SYNCHRONIZING; sync fills it"
                    )?));
                }
                Some(ComponentState::Stale) => {
                    return Ok(Some(format!(in alloc;
                        "{provider} is STALE; rebuild {mirror} {provider} lets sync fill it"
                    )?));
                }
                _ => {}
            }
        }
        Ok(None)
    }

    /// A sentence on a refused command, if more is known than the refusal's own sentence says.
    pub(crate) fn sentence(
        self,
        command: &Command,
        why: Refusal,
    ) -> Result<Option<String>, AllocError> {
        let about = About::command(command);
        match (why, about.mirror, providers_of(command)) {
            (Refusal::Absent, _, named) if self.folder.first_absent(named).is_none() => {
                self.absent(&about)
            }
            (Refusal::Absent, _, named) => self.other_entry(named),
            (Refusal::CarriesMetadata, _, [image]) => self.of_registered(*image),
            (Refusal::TooSmall, _, [image]) => self.too_small(&about, *image),
            (Refusal::BeingFilled, Some(mirror), _) => self.unfilled(mirror),
            _ => Ok(None),
        }
    }
}
