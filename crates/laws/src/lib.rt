// No code: the definitions in specs/ and the laws in proofs/ serve every other crate.
