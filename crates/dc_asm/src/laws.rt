ghost use Rattle.std.specs.Prelude.{◌≡◌, ◌≤◌, ◌<◌, ◌+◌, ◌*◌, ◌^◌, List, None, length, ℕ};
ghost use Rattle.dc_asm.specs.Elf.{elf_of};
ghost use Rattle.dc_asm.specs.Loading.{image_with};
ghost use Rattle.dc_asm.specs.Program.{IsFileOf};
ghost use Rattle.dc_asm.specs.declared.forms.Meant.{Meant as Means};
ghost use Rattle.dc_elf.specs.Files.{file_fault};
ghost use Rattle.dc_elf.specs.Images.{image_of};

/// The file of words loads into each memory that has room for them and for one word: it has no fault, and
/// its image has the words from 1024 on, zeros elsewhere, and its entry at 1024.
pub fn files_load()
    ensures right { (words : List ℕ) (size : ℕ) → 1024 + 4 * length words ≤ size → 1028 ≤ size → size < 2 ^ 32 → file_fault (elf_of words) size ≡ None }
    ensures image { (words : List ℕ) (size : ℕ) → 1024 + 4 * length words ≤ size → size < 2 ^ 32 → image_of size (elf_of words) ≡ image_with size words }
{}

/// A program has one file.
pub fn a_program_has_one_file()
    ensures { (program : List Means) (file other : List ℕ) → IsFileOf program file → IsFileOf program other → file ≡ other }
{}
