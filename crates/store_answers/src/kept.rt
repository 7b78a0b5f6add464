use crate::numbers::number;
use std::alloc::{AllocError, Global};

/// A place in images that has a name.
#[derive(Drop)]
pub struct Place {
    pub name: String,
    pub number: u64,
}

/// A layout and a file that a case kept.
#[derive(Drop)]
pub struct Image {
    pub name: String,
    pub layout: Vec<u8>,
    pub file: Vec<u8>,
}

/// What cases keep for later ones, and the places that have names.
#[derive(Drop)]
pub struct Kept {
    images: Vec<Image>,
    places: Vec<Place>,
}

impl Kept {
    pub fn new(alloc: Global) -> Kept {
        Kept {
            images: Vec::new(alloc),
            places: Vec::new(alloc),
        }
    }

    /// Keeps an image, of which the last one of a name counts.
    pub fn keep(&mut self, image: Image) -> Result<(), AllocError> {
        self.images.push(image)?;
        Ok(())
    }

    /// The place of the last image that was kept by a name.
    pub fn find(&self, name: &str) -> Option<usize> {
        self.images
            .iter()
            .rposition(|image| image.name.as_str() == name)
    }

    /// The image at a place.
    pub fn image_at(&self, place: usize) -> Option<&Image> {
        self.images.get(place)
    }

    /// The last image that was kept by a name.
    pub fn image(&self, name: &str) -> Option<&Image> {
        self.image_at(self.find(name)?)
    }

    pub fn places(&self) -> &[Place] {
        &self.places
    }

    /// Takes a place's name and its number. False where they are none.
    pub fn take_place(&mut self, alloc: Global, text: &str) -> Result<bool, AllocError> {
        let Some((name, sum)) = text.split_once(" ") else {
            return Ok(false);
        };
        let Some(number) = number(&self.places, sum) else {
            return Ok(false);
        };
        let name = String::from_str(alloc, name)?;
        self.places.push(Place { name, number })?;
        Ok(true)
    }
}
